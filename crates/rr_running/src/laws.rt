//! What always holds of verdicts on runs. The functions do nothing: a caller's proof cites what they ensure.
ghost use Rattle.std.specs.Prelude.{◌≡◌, ℕ, ◌≤◌, List, Option, None};
ghost use Rattle.rr_roster.specs.declared.company.Corp.{Corp};
ghost use Rattle.rr_books.specs.Book.{Book};
ghost use Rattle.rr_kit.specs.declared.kit.Kit.{Kit};
ghost use Rattle.rr_running.specs.Running.{IsBestRunVerdict, IsRunVerdict, earned_on, net_now};
ghost use Rattle.rr_books.specs.declared.refusal.Refusal.{Refusal};

/// No words have two verdicts as a run, with a certificate or without.
pub fn one_verdict_on_a_run()
    ensures alone { (kit : Kit) (book : Book) (c : Corp) (words : List ℕ) (one other : Option Refusal) →
        IsRunVerdict kit book c words one → IsRunVerdict kit book c words other → one ≡ other }
    ensures best { (kit : Kit) (book : Book) (c : Corp) (words certificate : List ℕ) (one other : Option Refusal) →
        IsBestRunVerdict kit book c words certificate one → IsBestRunVerdict kit book c words certificate other → one ≡ other }
{}

/// Words that are accepted with a certificate are accepted without it, and no words that are accepted earn more.
pub fn best_earns_most()
    ensures lawful { (kit : Kit) (book : Book) (c : Corp) (words certificate : List ℕ) →
        IsBestRunVerdict kit book c words certificate None → IsRunVerdict kit book c words None }
    ensures most { (kit : Kit) (book : Book) (c : Corp) (words certificate others : List ℕ) →
        IsBestRunVerdict kit book c words certificate None → IsRunVerdict kit book c others None →
        earned_on (net_now kit.board kit.tiles book c) others ≤ earned_on (net_now kit.board kit.tiles book c) words }
{}
