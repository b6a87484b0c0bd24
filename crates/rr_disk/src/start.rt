ghost use Rattle.std.specs.Prelude.{[]};
ghost use Rattle.rr_disk.specs.Disk.{DiskState, IsImage};
ghost use Rattle.rr_disk.specs.Events.{empty_may_stay};

/// What a file held as it was opened, and what of that was settled. No code can read it: a function over any `S: Start`
/// is proved for every such state.
pub trait Start: Drop {
    ghost held: { DiskState };

    ghost may_stay: { IsImage held held.content };
}

/// For a program to name: the empty file. No program can know what its file holds, and no code can see which start is
/// named, so what is proved for every start holds of its run, whatever the file held.
#[derive(Drop)]
pub struct Unknown;

impl Start for Unknown {
    ghost held = { record { content = []; settled = []; ranges = [] } };

    ghost may_stay = { empty_may_stay };
}
