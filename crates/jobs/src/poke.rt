// A poke: one raw field of the tables is overwritten, or bytes of the name area. The fields of each table stand in the
// order in which its row has them.
#[derive(Clone, Copy)]
pub(crate) enum TaskField {
    State,
    Mother,
    Limit,
    Disp,
    HasEcb,
    Ecb,
    Rwait,
    Need,
}

#[derive(Clone, Copy)]
pub(crate) enum EntryField {
    Task,
    Excl,
    Name,
}

#[derive(Clone, Copy)]
pub(crate) enum EcbField {
    Wait,
    Complete,
    Code,
    Waiter,
}

#[derive(Clone, Copy)]
pub(crate) enum AreaField {
    Address,
    Length,
    Subpool,
    Owner,
}

// The two fields of the step, or one of a place. `at` is the place in its table: that of task n is n - 1. Or `count`
// bytes of the name area from `at` on: their digits end the line, and are read there again when they are written.
#[derive(Clone, Copy)]
pub(crate) enum Poke {
    Over(u32),
    Code(u32),
    Task {
        at: usize,
        field: TaskField,
        value: u32,
    },
    Entry {
        at: usize,
        field: EntryField,
        value: u32,
    },
    Ecb {
        at: usize,
        field: EcbField,
        value: u32,
    },
    Area {
        at: usize,
        field: AreaField,
        value: u32,
    },
    Name {
        at: usize,
        count: usize,
    },
}
