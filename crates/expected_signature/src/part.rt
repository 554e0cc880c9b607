// A part of a signature.

// Whether poison is in the part, the place behind it in the pool, the place behind its words in the output, and its visits.
#[derive(Clone, Copy)]
pub struct Part {
    pub poisoned: bool,
    pub next: usize,
    pub to: usize,
    pub visits: u32,
}
