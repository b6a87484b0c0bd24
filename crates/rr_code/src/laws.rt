//! What always holds of the texts of commands, requests and lines. The functions do nothing: a caller's proof
//! cites what they ensure.
ghost use Rattle.std.specs.Prelude.{◌≡◌, List, ℕ, Result};
ghost use Rattle.rr_code.specs.Command.{IsCommand, IsReadAs, SpellsCommand, text};
ghost use Rattle.rr_code.specs.Request.{IsRequest, SpellsRecord, request_text};
ghost use Rattle.rr_turns.specs.declared.request.Request.{Request};
ghost use Rattle.rr_code.specs.Line.{IsLine, SpellsLine, line_text};
ghost use Rattle.rr_code.specs.declared.command.Command.{Command};
ghost use Rattle.rr_code.specs.declared.line.Line.{Line};
ghost use Rattle.rr_code.specs.declared.fault.Fault.{Fault};

/// A text spells at most one command, one request, one record and one line.
pub fn one_meaning()
    ensures command { (c d : Command) → IsCommand c → IsCommand d → text c ≡ text d → c ≡ d }
    ensures request { (q r : Request Command) → IsRequest q → IsRequest r → request_text q ≡ request_text r → q ≡ r }
    ensures record_table { (table other : List ℕ) (q r : Request Command) (bytes : List ℕ) → SpellsRecord bytes table q → SpellsRecord bytes other r → table ≡ other }
    ensures record_request { (table other : List ℕ) (q r : Request Command) (bytes : List ℕ) → SpellsRecord bytes table q → SpellsRecord bytes other r → q ≡ r }
    ensures line { (l m : Line) → IsLine l → IsLine m → line_text l ≡ line_text m → l ≡ m }
{}

/// Each command has one spelling: what is written is read as the same command, and no other text is.
/// A reader has one right answer to each text.
pub fn one_spelling()
    ensures read_back { (c : Command) (answer : Result Command Fault) → IsCommand c → IsReadAs (text c) answer → answer ≡ Ok c }
    ensures nothing_else { (bytes : List ℕ) (c : Command) → IsReadAs bytes (Ok c) → bytes ≡ text c }
    ensures one_text { (first second : List ℕ) (c : Command) → SpellsCommand first c → SpellsCommand second c → first ≡ second }
    ensures one_answer { (bytes : List ℕ) (first second : Result Command Fault) → IsReadAs bytes first → IsReadAs bytes second → first ≡ second }
{}
