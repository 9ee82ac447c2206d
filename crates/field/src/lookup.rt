// The tables of a field: the exponents of its elements, and the powers of α.
ghost use Rattle.std.specs.Prelude.{◌≡◌, ◌-◌, ◌^◌, ◌<◌, true};
ghost use Rattle.field.specs.Field.{width_good, times, alpha};
ghost use Rattle.field.specs.Within.{Tables};

use crate::{ANTILOG_3, ANTILOG_4, LOG_3, LOG_4};

/// The tables of the field of 2^m.
#[derive(Clone, Copy)]
pub struct FieldTables<'a> {
    pub m: u32,
    logs: &'a [u8],
    antilogs: &'a [u8],
    pub ghost right: { Tables m logs.now antilogs.now },
}

impl<'a> FieldTables<'a> {
    pub fn of(m: u32) -> FieldTables<'static>
        requires { width_good m ≡ true }
        ensures { result.m ≡ m }
    {
        if m == 3 {
            return FieldTables {
                m: 3,
                logs: &LOG_3,
                antilogs: &ANTILOG_3,
            };
        }
        FieldTables {
            m: 4,
            logs: &LOG_4,
            antilogs: &ANTILOG_4,
        }
    }

    // An element times α^t, t below 2^m - 1: exponents add, and come round once at most.
    pub fn times_power(self, a: u8, t: usize) -> u8
        requires { (a < 2 ^ self.m) × (t < 2 ^ self.m - 1) }
        ensures { result ≡ times self.entry.m a (alpha self.entry.m t) }
    {
        if a == 0 {
            return 0;
        }
        let i = a as usize;
        let e = (self.logs[i] as usize) + t;
        if e < self.antilogs.len() {
            return self.antilogs[e];
        }
        self.antilogs[e - self.antilogs.len()]
    }
}
