//! What always holds of what files hold. The functions do nothing: a caller's proof cites what they ensure.
ghost use Rattle.rr_reading.specs.Laws as laws;

use rr_images::Codec;

/// A file holds one thing at most; in one way its chains are found, and it has one damage at most. One that holds
/// something has none, and is a store, as is one that is damaged.
pub fn files_have_one_answer()
    ensures held { laws.OneHeld }
    ensures found { laws.OneFound }
    ensures damage { laws.OneDamage }
    ensures whole { laws.HeldIsWhole }
    ensures store { laws.StoreIsOne }
{}

/// What a file holds is what an opening reads of its root; and the file stands for the world to which its records lead
/// from the one that its chains spell, where no record is damaged.
pub fn held_files_stand<C: Codec>()
    ensures read { laws.HeldIsRead C.codec }
    ensures stands { laws.HeldStands C.codec }
{}

/// A damaged file is refused, and so stands for nothing. If the damage is the form of what a table's chain holds, this
/// is so of codecs that spell nothing then.
pub fn damaged_files_are_refused<C: Codec>()
    ensures bytes { laws.DamagedIsRefused C.codec }
    ensures all { laws.AllDamagedAreRefused C.codec }
{}
