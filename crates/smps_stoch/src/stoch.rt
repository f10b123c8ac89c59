use stoch_lines::StochEntry;
use wide_num::List;

/// What a stoch file says: elements, of which the scenarios are all
/// combinations, or scenarios one by one. Without a scenario line it is a
/// product, of no elements where there is none.
#[derive(Drop)]
pub enum Stoch {
    Product(List<Element>),
    Scenarios(List<Branch>),
}

/// A place of INDEP or a block: the period from which it may change, from 1,
/// and its realisations in order.
#[derive(Drop)]
pub struct Element {
    pub period: u8,
    pub realisations: List<Realisation>,
}

/// One choice of an element: its weight beside the others of the element, and
/// the entries of its own lines in order.
#[derive(Drop)]
pub struct Realisation {
    pub weight: i128,
    pub entries: List<StochEntry>,
}

/// A scenario: its parent's number from 0, none for the core, its weight
/// beside the others, the period that its line names, and the entries of its
/// own lines in order.
#[derive(Drop)]
pub struct Branch {
    pub parent: Option<u32>,
    pub weight: i128,
    pub period: u8,
    pub entries: List<StochEntry>,
}
