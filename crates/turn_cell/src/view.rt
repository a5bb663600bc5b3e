// What a seat knows. No value of these types is made: they exist in contracts and proofs alone.
use std::collections::LinkedList;

/// Whether a seat has the value, and what it took down when it took it: the parts and the trail.
pub enum Turn<P, E> {
    /// The seat doesn't have the value.
    Free,
    /// It has the value, which had these parts and this trail.
    Taken(LinkedList<P>, LinkedList<E>),
    /// It is giving the value back, which will have the other parts and the other trail.
    Announced(LinkedList<P>, LinkedList<E>, LinkedList<P>, LinkedList<E>),
}

/// What a seat knows.
pub struct SeatView<P, E> {
    /// The first part that it owns, which is its number.
    pub first: u32,
    /// The parts that it owns, as it last left them.
    pub own: LinkedList<P>,
    /// The same parts as they were when the cell was made.
    pub original: LinkedList<P>,
    /// The trail that it knows.
    pub trail: LinkedList<E>,
    /// The trail of a seat that is being joined into this one; empty at all other times.
    pub incoming: LinkedList<E>,
    pub turn: Turn<P, E>,
    /// How many of its tries found the value taken.
    pub misses: u64,
    /// The word that the last of these tries found.
    pub missed_word: u64,
    /// How many tries it made while it waited; `take` alone makes them.
    pub waiting_tries: u64,
    /// How often it looked at the word.
    pub looks: u64,
    /// The word that it found last.
    pub found_word: u64,
}
