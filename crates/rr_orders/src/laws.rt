//! What always holds of the texts of orders. The function does nothing: a caller's proof cites what it ensures.
ghost use Rattle.std.specs.Prelude.{◌≡◌, List, ℕ, Some};
ghost use Rattle.rr_words.specs.Line.{words_of};
ghost use Rattle.rr_orders.specs.Order.{IsOrder, SpellsOrder, text};
ghost use Rattle.rr_orders.specs.Reading.{read_order};
ghost use Rattle.rr_orders.specs.declared.order.Order.{Order};

/// Each order has one spelling: what is written is read as the same order, and a text spells at most one order.
pub fn one_spelling()
    ensures read_back { (order : Order) → IsOrder order → read_order (words_of (text order)) ≡ Some order }
    ensures one_text { (first second : List ℕ) (order : Order) → SpellsOrder first order → SpellsOrder second order → first ≡ second }
    ensures one_order { (bytes : List ℕ) (first second : Order) → SpellsOrder bytes first → SpellsOrder bytes second → first ≡ second }
{}
