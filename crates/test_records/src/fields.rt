// The fields: the tables of powers, inverses, and the refusals of the calls on elements.
use field::Element;
use refusal::Refusal;
use test_tally::tally::Tally;

const POWERS_3: [u8; 7] = [1, 2, 4, 3, 6, 7, 5];

const POWERS_4: [u8; 15] = [1, 2, 4, 8, 3, 6, 12, 11, 5, 10, 7, 14, 15, 13, 9];

pub fn agree() -> Tally {
    let t = table(Tally::default(), 3, &field::ANTILOG_3, &POWERS_3);
    refusals(elements(table(t, 4, &field::ANTILOG_4, &POWERS_4)))
}

// A field's table of powers: each listed power times α is the next one, and the last times α is 1; the inverse of each has the product 1
// with it.
fn table(tally: Tally, m: u32, antilogs: &[u8], listed: &[u8]) -> Tally {
    let mut t = tally.with(antilogs == listed);
    for (value, next) in listed.iter().zip(listed.iter().skip(1).chain(&[1])) {
        let power = element(m, *value);
        t = t
            .with(gives(power.product(element(m, 2)), Ok((m, *next))))
            .with(gives(undone(power), Ok((m, 1))));
    }
    t
}

// The product of an element with its inverse.
fn undone(a: Element) -> Result<Element, Refusal> {
    a.product(a.inverse()?)
}

// The inverse of 0 is given as 0.
fn elements(t: Tally) -> Tally {
    t.with(gives(element(3, 0).inverse(), Ok((3, 0))))
        .with(gives(element(4, 0).inverse(), Ok((4, 0))))
        .with(gives(Element::new(3, 7), Ok((3, 7))))
        .with(gives(Element::new(4, 15), Ok((4, 15))))
        .with(gives(element(3, 5).sum(element(3, 6)), Ok((3, 3))))
}

// A wrong m or two different ones are refused first, then a number not below 2^m.
fn refusals(t: Tally) -> Tally {
    let wrong = element(5, 200);
    let large = element(3, 8);
    t.with(gives(Element::new(2, 1), Err(Refusal::Code)))
        .with(gives(Element::new(5, 200), Err(Refusal::Code)))
        .with(gives(Element::new(3, 8), Err(Refusal::Symbol)))
        .with(gives(Element::new(4, 16), Err(Refusal::Symbol)))
        .with(gives(wrong.inverse(), Err(Refusal::Code)))
        .with(gives(large.inverse(), Err(Refusal::Symbol)))
        .with(gives(element(3, 5).sum(element(4, 5)), Err(Refusal::Code)))
        .with(gives(large.sum(element(4, 5)), Err(Refusal::Code)))
        .with(gives(element(3, 5).sum(large), Err(Refusal::Symbol)))
        .with(gives(large.product(element(3, 5)), Err(Refusal::Symbol)))
        .with(gives(wrong.product(wrong), Err(Refusal::Code)))
}

fn element(m: u32, value: u8) -> Element {
    Element { m, value }
}

// A call answers an element, by its m and its value, or a refusal.
fn gives(answer: Result<Element, Refusal>, expected: Result<(u32, u8), Refusal>) -> bool {
    answer.map(|e| (e.m, e.value)) == expected
}
