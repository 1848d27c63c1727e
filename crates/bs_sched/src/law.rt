//! The isolation law, as a contract: the stays of a core do not affect one another.
ghost use Rattle.bs_sched.specs.Registry.{RegistryLaw, ProgressExample, NamesLaw, ServedLaw, JournalLaw};
ghost use Rattle.bs_sched.specs.Isolation.{IsolationLaw};
ghost use Rattle.bs_sched.specs.SharedMemory.{MemoryLaw};
ghost use Rattle.bs_sched.specs.ApartExample.{ApartExample};
ghost use Rattle.bs_sched.specs.Assembly.{AssemblyLaw, SharingLaw};
ghost use Rattle.bs_sched.specs.StaysApart.{PlayedExample, StaysApartLaw};

/// States the isolation law for every plan within its limits, whose reservations fit the blocks,
/// every number of workers, every list of events whose commands and rows are within the limits, and
/// every stay of the plan or admitted by the events. The stay's accepted events, run alone, give
/// the very same lane; no event of another stay changes it; and its replies and boards are those of
/// its own commands, one after the other. The bytes of its records lie at their places in blocks
/// that no other stay has; they are the bytes that it has when run alone, and no event of another
/// stay moves or changes one. Free blocks, blocks of records and frame blocks add up to the pool;
/// each block is exactly one of these, and belongs to one stay at most. A move has at most four
/// frame blocks, and a stay without a move has none. If a block is needed, one is free. A stay that
/// has left owns no block, and the reservations are those of the open stays. Whether a stay is
/// admitted depends on earlier admissions and leaves, and on no job. No two open stays have one
/// name. A stay can be admitted, play a turn by all jobs of a move, with the replies and boards
/// that it has alone, and be closed.
/// Does nothing.
pub fn isolation_law()
    ensures isolation { IsolationLaw }
    ensures memory { MemoryLaw }
    ensures registry { RegistryLaw }
    ensures journal { JournalLaw }
    ensures names { NamesLaw }
    ensures served { ServedLaw }
    ensures progress { ProgressExample }
{}

/// States the assembly law for every plan within its limits, every number of workers and all
/// commands of a file. Each game of the plan ran in a core of its own, with the blocks that it
/// reserves, first all its commands and then its jobs, until no job was in progress. The events of
/// these cores, all commands in the order of the file and then the jobs of one core after the
/// other, are enabled in the core of all games. They lead there to the lanes of these cores. A
/// record that lies in block n of its core lies there in the n-th of the blocks that the cores
/// before left free, at the same place. The reservations of the cores are those of the plan. Newly
/// opened cores are put together to the newly opened core of the plan. Two games can run so, each
/// with a turn. Does nothing.
pub fn assembly_law()
    ensures assembly { AssemblyLaw }
    ensures sharing { SharingLaw }
    ensures progress { ApartExample }
{}

/// States the law of stays that come and go, for every plan within its limits, every number of
/// workers and all acts of a file that the registry allows in their order: commands, admissions and
/// leaves. Each stay was played in a core of its own, with the blocks that it reserves: first all
/// its commands were queued, then its jobs were done until none was in progress; if it leaves, it
/// has nothing left to do. The acts in the order of the file, before each leave the jobs of the stay
/// that leaves, and then the jobs of the other stays, one stay after the other, are enabled in the
/// core of all stays. They lead there to the lanes of these cores, closed if the stay left. A stay
/// that left has no block and no reservation. A record of another stay that lies in block n of its
/// core lies there in the n-th of the blocks that the stays before left free, at the same place. The
/// reservations are those of the stays that did not leave. A stay that plays a turn can be played
/// so, whether it leaves or not. Does nothing.
pub fn stays_apart_law()
    ensures stays { StaysApartLaw }
    ensures played { PlayedExample }
{}
