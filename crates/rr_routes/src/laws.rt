//! Laws of the definitions, each the contract of a function that does nothing.
ghost use Rattle.std.specs.Prelude.{◌≡◌, ◌≢◌, ℕ, ◌+◌, ◌≤◌, ◌↔◌, List, [], ◌∷◌, Contains, sum_by, slice_set, Vec};
ghost use Rattle.std.specs.List.{AllZip};
ghost use Rattle.std.specs.declared.alloc.Global.{Global};
ghost use Rattle.rr_routes.specs.Net.{Net};
ghost use Rattle.rr_routes.specs.Routes.{Trip, Walk, Path, Route, Run, Optimal, centres, worth, earned};
ghost use Rattle.rr_routes.specs.Certificates.{fate_of, Keeps, IsBounded, IsFull, AcceptsUnder, choices, node_count, Accepts};
ghost use Rattle.rr_routes.specs.Greatest.{GreatestOfAll};
ghost use Rattle.rr_routes.specs.SmallBoard.{small_board, forked_board, to_town, to_city, off_board, ThirtyAtMost};
ghost use Rattle.rr_routes.specs.declared.net.Node.{Node};
ghost use Rattle.rr_routes.specs.declared.net.CentreLimit.{CentreLimit};
ghost use Rattle.rr_routes.specs.declared.net.CentreLimit.TheVariants.{AtMost, Unlimited};
ghost use Rattle.rr_routes.specs.declared.certificate.Fate.{Fate};
ghost use Rattle.rr_routes.specs.declared.certificate.Fate.TheVariants.{Open};
ghost use Rattle.rr_routes.specs.declared.certificate.CertTree.{CertTree, Bound, Split};

use crate::certificate::MOST_NODES;

/// A certificate has at most 4,096 nodes.
pub fn most_nodes()
    ensures { MOST_NODES ≡ 4096 }
{}

/// If a certificate is accepted for a claim, no run of the net earns more than the claim. A run that earns the claim is
/// optimal, whoever made it.
pub fn optimal()
    ensures most { (net : Net) (claim : ℕ) (tree : CertTree) → Accepts net claim tree →
        (run : List Trip) → Run net run → earned net run ≤ claim }
    ensures optimal { (net : Net) (claim : ℕ) (tree : CertTree) → Accepts net claim tree →
        (run : List Trip) → Run net run → earned net run ≡ claim → Optimal net run }
{}

/// The bound of a certificate is what the trains' greatest values come to, among the centres that they reach.
pub fn greatest_values()
    ensures { (net : Net) (claim : ℕ) (fates : List Fate) (greatest : List (List ℕ)) → GreatestOfAll net fates greatest →
        IsBounded net claim fates ↔ (sum_by (worth net) greatest ≤ claim) }
{}

/// Paths over the same links that begin at one node are one path, and all paths over the same links are worth the
/// same. So where every link is decided, all runs that keep the fates earn the same.
pub fn same_links()
    ensures one_path { (net : Net) (node : Node) (links others : List ℕ) (nodes behind : List Node) →
        Path net links (node ∷ nodes) → Path net others (node ∷ behind) →
        ((link : ℕ) → Contains links link ↔ Contains others link) → (links ≡ others) × (nodes ≡ behind) }
    ensures paths { (net : Net) (one other : Trip) → Path net one.links one.nodes → Path net other.links other.nodes →
        ((link : ℕ) → Contains one.links link ↔ Contains other.links link) →
        worth net (centres one.nodes) ≡ worth net (centres other.nodes) }
    ensures runs { (net : Net) (fates : List Fate) → ((link : ℕ) → fate_of fates link ≢ Open) →
        (run other : List Trip) → Run net run → Keeps fates run → Run net other → Keeps fates other →
        earned net run ≡ earned net other }
{}

/// If every link is decided, one look settles a full leaf: it stands if no run keeps the fates, and if one does,
/// exactly if that run earns at most the claim.
pub fn full_leaves()
    ensures no_run { (net : Net) (claim : ℕ) (fates : List Fate) → ((link : ℕ) → fate_of fates link ≢ Open) →
        ((run : List Trip) → Run net run → Keeps fates run → ⊥) → IsFull net claim fates }
    ensures one_run { (net : Net) (claim : ℕ) (fates : List Fate) → ((link : ℕ) → fate_of fates link ≢ Open) →
        (run : List Trip) → Run net run → Keeps fates run → IsFull net claim fates ↔ (earned net run ≤ claim) }
{}

/// A split is accepted exactly if its link is open and its children are accepted one by one: the first under the link
/// denied to all, then one under the link of each train. A tree has one node more than its children together.
pub fn splits()
    ensures accepted { (net : Net) (claim : ℕ) (fates : List Fate) (link : ℕ) (children : Vec CertTree Global) →
        AcceptsUnder net claim fates (Split link children) ↔ ((fate_of fates link ≡ Open)
        × AllZip (λ choice child. AcceptsUnder net claim (slice_set fates link choice) child) (choices net) children.items) }
    ensures counted { (link : ℕ) (children : Vec CertTree Global) →
        node_count (Split link children) ≡ 1 + sum_by node_count children.items }
{}

/// On a small board a 2 earns 30, a 3 earns 60, and a D earns 100, which is optimal. That the 2 earns at most 30 is
/// shown by splits; that a 3 earns at most 60 isn't shown by its greatest values, and that the 2 earns at most 20 by
/// no tree.
pub fn worked_rows()
    ensures two { Run (small_board (AtMost 2)) (to_town ∷ []) × (earned (small_board (AtMost 2)) (to_town ∷ []) ≡ 30) }
    ensures three { Run (small_board (AtMost 3)) (to_city ∷ []) × (earned (small_board (AtMost 3)) (to_city ∷ []) ≡ 60) }
    ensures unlimited { Optimal (small_board Unlimited) (off_board ∷ [])
        × (earned (small_board Unlimited) (off_board ∷ []) ≡ 100) }
    ensures shown { (tree : CertTree) → ThirtyAtMost tree → Accepts (small_board (AtMost 2)) 30 tree }
    ensures not_bounded { Accepts (small_board (AtMost 3)) 60 Bound → ⊥ }
    ensures too_little { (tree : CertTree) → Accepts (small_board (AtMost 2)) 20 tree → ⊥ }
{}

/// What is no route or no run: a 2 that counts three centres; a route without a token; one through a city whose slots
/// are filled by others; one that turns back at a hexside into the hex that it comes from; two trains over one hexside.
pub fn refused_rows()
    ensures too_many_centres { Route (small_board (AtMost 2)) (AtMost 2) to_city → ⊥ }
    ensures no_token { Route (record (small_board Unlimited) { tokens = [] }) Unlimited off_board → ⊥ }
    ensures filled_city { Route (record (small_board Unlimited) { terminals = 2 ∷ 3 ∷ [] }) Unlimited off_board → ⊥ }
    ensures no_turn { (limit : CentreLimit) (links : List ℕ) (nodes : List Node) →
        Walk (forked_board limit) (1 ∷ 2 ∷ links) nodes → ⊥ }
    ensures shared_side { Run (record (small_board (AtMost 2)) { trains = AtMost 2 ∷ AtMost 2 ∷ [] }) (to_town ∷ to_town ∷ []) → ⊥ }
{}
