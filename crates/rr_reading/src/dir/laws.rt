//! What always holds of directories and of kept commands. The functions do nothing: a caller's proof cites what they
//! ensure.
ghost use Rattle.std.specs.Prelude.{◌≡◌, ℕ, List};
ghost use Rattle.rr_reading.specs.Dir.Directory.{Directory, Spells};
ghost use Rattle.rr_reading.specs.Dir.Heads.{Heads};
ghost use Rattle.rr_reading.specs.Dir.Kept.{SpellsKept};
ghost use Rattle.rr_reading.specs.Dir.Version.{version_number};
ghost use Rattle.rr_reading.specs.declared.dir.version.Version.{Version};

use crate::dir::directory::{
    MOST_KEPT, MOST_SNAPSHOT_BYTES, MOST_SNAPSHOTS, MOST_TABLES, MOST_TEXT,
};
use crate::dir::version::NEWEST;
use rr_pages::NEWEST_VERSION;
use rr_turns::LAST_STAMP;

/// Bytes spell at most one directory, name at most one list of chains, and spell at most one list of commands, and a
/// number names at most one version. That each has one spelling holds by definition.
pub fn one_meaning()
    ensures directory { (version : Version) (bytes : List ℕ) (first second : Directory) → Spells version bytes first → Spells version bytes second → first ≡ second }
    ensures heads { (number : ℕ) (bytes : List ℕ) (first second : List (ℕ × ℕ)) → Heads number bytes first → Heads number bytes second → first ≡ second }
    ensures versions { (version other : Version) → version_number version ≡ version_number other → version ≡ other }
    ensures kept { (bytes : List ℕ) (first second : List (List ℕ)) → SpellsKept bytes first → SpellsKept bytes second → first ≡ second }
{}

/// The newest version is the one of which roots are written.
pub fn newest_version()
    ensures { version_number NEWEST ≡ NEWEST_VERSION }
{}

/// The limits of a directory: 64 tables, each of which keeps at most 4,096 commands and has a stamp up to
/// 4,000,000,000; texts of 65,536 bytes; and 4,096 snapshots of 16,384 bytes.
pub fn limits()
    ensures tables { MOST_TABLES ≡ 64 }
    ensures kept { MOST_KEPT ≡ 4096 }
    ensures stamp { LAST_STAMP ≡ 4000000000 }
    ensures text { MOST_TEXT ≡ 65536 }
    ensures snapshots { MOST_SNAPSHOTS ≡ 4096 }
    ensures snapshot { MOST_SNAPSHOT_BYTES ≡ 16384 }
{}
