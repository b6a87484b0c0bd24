//! The programs that open a file one after another, for laws on a file's history. It has no code.
ghost use Rattle.rr_world_laws.specs.Programs.{ContentsMayStay, Programs as AnyPrograms, either_may_stay, one_type, one_type_more};

use rr_disk::Disk;
use std::marker::PhantomData;

/// The programs that may open a file one after another, each with a disk of its own. Any two disks may have different
/// types. It has no code.
pub trait Programs {
    /// Which programs they are, and the ghost members of each one's disk.
    ghost programs: { AnyPrograms };
}

/// Programs whose disks keep the law of `Disk`. It has no code.
pub trait ProgramsOnDisks: Programs {
    /// A crash may leave an honest disk just as a read gives it.
    ghost may_stay: { ContentsMayStay Self.programs };
}

/// Programs with a disk of the type `D`.
pub struct OneType<D> {
    disk: PhantomData<D>,
}

/// The programs `P`, and others with a disk of the type `D`.
pub struct OneTypeMore<P, D> {
    programs: PhantomData<P>,
    disk: PhantomData<D>,
}

impl<D: Disk> Programs for OneType<D> {
    ghost programs = { one_type D.Disk };
}

impl<D: Disk> ProgramsOnDisks for OneType<D> {
    ghost may_stay = { λ p. D.content_may_stay };
}

impl<P: Programs, D: Disk> Programs for OneTypeMore<P, D> {
    ghost programs = { one_type_more P.programs D.Disk };
}

impl<P: ProgramsOnDisks, D: Disk> ProgramsOnDisks for OneTypeMore<P, D> {
    ghost may_stay = { either_may_stay P.programs D.Disk.own P.may_stay D.content_may_stay };
}
