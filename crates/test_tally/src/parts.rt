// Parts of slices. A length that is a number of the program's is turned into a part here alone, so that its callers have nothing to prove.

// The first n elements, or all of them where there are not so many.
pub fn of<T>(s: &[T], n: usize) -> &[T] {
    &s[..n.min(s.len())]
}

pub fn of_mut<T>(s: &mut [T], n: usize) -> &mut [T] {
    let end = n.min(s.len());
    &mut s[..end]
}

// What stands behind the first n elements.
pub fn past_mut<T>(s: &mut [T], n: usize) -> &mut [T] {
    let start = n.min(s.len());
    &mut s[start..]
}
