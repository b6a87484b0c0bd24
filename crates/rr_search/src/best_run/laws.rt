//! What always holds of the nets of boards, and of nets of few links. The functions do nothing: a caller's proof cites
//! what they ensure.
ghost use Rattle.std.specs.Prelude.{List};
ghost use Rattle.rr_search.specs.BestRun.Lengths.{ElevenLinksNeverLack, FewLinksFit, OnlyLargeTreesLack};
ghost use Rattle.rr_search.specs.BestRun.Worded.{HasLegal};
ghost use Rattle.rr_kit.specs.Board.Plan.{Plan};
ghost use Rattle.rr_books.specs.Book.{Book};
ghost use Rattle.rr_roster.specs.declared.company.Corp.{Corp};
ghost use Rattle.rr_running.specs.Running.{net_now};
ghost use Rattle.rr_routes.specs.declared.sheets.sheet.TrainWord.{TrainWord};
ghost use Rattle.rr_tiles.specs.declared.supply.Supply.{Supply};

/// Whatever lies on a board, a corporation has a legal sheet: all its trains may stay where they are.
pub fn trains_may_stay()
    ensures { (plan : Plan) (tiles : List Supply) (book : Book) (c : Corp) → (sheet : List TrainWord) × HasLegal (net_now plan tiles book c) sheet }
{}

/// On a net of at most 2,296 links and trains together, nine of them trains at most, no best run with its certificate is
/// too long for a line of 32,000 bytes, whatever its stamp and its table's name. So there the search lacks a run only if
/// the tree that splits every link has more than 4,096 nodes, and never with one train and at most eleven links.
pub fn few_links_fit()
    ensures fit { FewLinksFit }
    ensures large_trees { OnlyLargeTreesLack }
    ensures eleven_links { ElevenLinksNeverLack }
{}
