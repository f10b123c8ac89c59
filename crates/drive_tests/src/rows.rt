//! Schedules on SMALL, with the texts that they give.

/// Ranks, Lagrangian spokes, further puts, the schedule, and the text of the run.
pub const ROWS: &[(usize, usize, u64, &str, &str)] = &[
    (
        1,
        1,
        1,
        "",
        "first 80 none\nput 1\nput 2\ntake 1 2 100 100 none\nend iterations\nspoke 1 lagrangian\nreading 2 100\nlower 100 = 5\nupper none\n",
    ),
    (
        1,
        1,
        1,
        "r1*8 s1*14 h*5 r1*8 s1*14 h*5 h s1",
        "first 80 none\nput 1\ntake 1 1 120 120 none\nput 2\ntake 1 2 100 120 none\nend iterations\nspoke 1 lagrangian\nreading 1 120\nreading 2 100\nlower 120 = 6\nupper none\n",
    ),
    (
        1,
        1,
        1,
        "r1*8 s1*5 h r1 s1*4",
        "first 80 none\nput 1\nput 2\ntake 1 2 100 100 none\nend iterations\nspoke 1 lagrangian\nreading 2 100\nlower 100 = 5\nupper none\n",
    ),
    (
        2,
        1,
        1,
        "r1*5 r2*5 h r2*5 s1*7",
        "first 80 none\nput 1\nput 2\ntake 1 2 100 100 none\nend iterations\nspoke 1 lagrangian\nreading 2 100\nlower 100 = 5\nupper none\n",
    ),
    (
        1,
        0,
        0,
        "",
        "first 80 none\nput 1\nend iterations\nlower 80 = 4\nupper none\n",
    ),
    (
        1,
        0,
        2,
        "h*3 r1*20",
        "first 80 none\nput 1\nput 2\nput 3\ntake hub 3 120 80 120\nend agreed\nlower 80 = 4\nupper 120 = 6\n",
    ),
    (
        2,
        3,
        2,
        "s3*4 r1*8 r2*8 s2*40 s1*9 h*7",
        "first 80 none\nput 1\ntake 2 1 120 120 none\nput 2\nput 3\ntake hub 3 120 120 120\ntake 1 3 100 120 120\ntake 2 3 100 120 120\ntake 3 3 100 120 120\nend agreed\nspoke 1 lagrangian\nreading 3 100\nspoke 2 lagrangian\nreading 1 120\nreading 3 100\nspoke 3 lagrangian\nreading 3 100\nlower 120 = 6\nupper 120 = 6\n",
    ),
    (
        1,
        2,
        0,
        "r1*8 s2*14",
        "first 80 none\nput 1\ntake 2 1 120 120 none\ntake 1 1 120 120 none\nend iterations\nspoke 1 lagrangian\nreading 1 120\nspoke 2 lagrangian\nreading 1 120\nlower 120 = 6\nupper none\n",
    ),
    (
        2,
        2,
        1,
        "r2*9 s1*3 r1*6 s1*30 s2*20 h*9 r1*3",
        "first 80 none\nput 1\ntake 1 1 120 120 none\ntake 2 1 120 120 none\nput 2\ntake 1 2 100 120 none\ntake 2 2 100 120 none\nend iterations\nspoke 1 lagrangian\nreading 1 120\nreading 2 100\nspoke 2 lagrangian\nreading 1 120\nreading 2 100\nlower 120 = 6\nupper none\n",
    ),
    // a poll that is torn, one that finds an odd stamp, and a reply that is taken late
    (
        1,
        1,
        1,
        "r1*8 s1*9 h s1*5 r1*8 h*2 s1*10 h*3",
        "first 80 none\nput 1\nput 2\ntake 1 1 120 120 none\ntake 1 2 100 120 none\nend iterations\nspoke 1 lagrangian\nreading 1 120\nreading 2 100\nlower 120 = 6\nupper none\n",
    ),
    (
        1,
        1,
        1,
        "r1*8 s1*9 h s1*2 r1*8 h",
        "first 80 none\nput 1\nput 2\ntake 1 1 120 120 none\ntake 1 2 100 120 none\nend iterations\nspoke 1 lagrangian\nreading 1 120\nreading 2 100\nlower 120 = 6\nupper none\n",
    ),
    (
        1,
        1,
        1,
        "r1*8 s1*9 h s1*5 r1*8 h*5",
        "first 80 none\nput 1\nput 2\ntake 1 1 120 120 none\ntake 1 2 100 120 none\nend iterations\nspoke 1 lagrangian\nreading 1 120\nreading 2 100\nlower 120 = 6\nupper none\n",
    ),
];

/// A budget that no search of these runs spends.
pub const ENOUGH: u64 = 1000000;

/// A budget, the schedule of one rank and one spoke, and the text of the run with one put
/// more, in which a spoke's search is spent.
pub const SPENT_ROWS: &[(u64, &str, &str)] = &[(
    26,
    "r1*8 s1*14 h*5 r1*8 s1*14 h*5 h s1",
    "first 80 none\nput 1\ntake 1 1 120 120 none\nput 2\nend iterations\nspoke 1 lagrangian\nreading 1 120\nskip 2 1\nlower 120 = 6\nupper none\n",
)];
