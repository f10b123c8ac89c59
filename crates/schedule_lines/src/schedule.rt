use wide_num::List;

/// Who takes a turn. Ranks and spokes are counted from 0.
#[derive(Clone, Copy, Debug, Drop, PartialEq, Eq)]
pub enum Actor {
    Hub,
    Rank(usize),
    Spoke(usize),
}

/// So many steps of one actor, one after another.
#[derive(Clone, Copy, Debug, Drop, PartialEq, Eq)]
pub struct Turn {
    pub actor: Actor,
    pub count: u32,
}

/// The turns of a run, in order. There is one for each word of the file.
#[derive(Clone, Debug, Drop)]
pub struct Schedule {
    pub turns: List<Turn>,
}

/// How many ranks and how many spokes a run has.
#[derive(Clone, Copy, Debug, Drop)]
pub struct Crew {
    pub ranks: usize,
    pub spokes: usize,
}
