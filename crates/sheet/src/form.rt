// A kind of word that holds items.
ghost use Rattle.sheet.specs.Forms.{Fine};

/// A kind of word that holds items: how many, and below what each is.
#[derive(Clone, Copy)]
pub struct Form {
    pub kind: u32,
    pub each: usize,
    pub base: u32,
    pub ghost fine: { Fine kind each base },
}
