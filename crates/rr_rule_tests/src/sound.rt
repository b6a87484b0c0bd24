//! The laws on the auction and on commands of stock rounds, each called once.
use rr_laws::soundness::laws::{
    auction_stays_governed, auction_stays_within_half, first_turn_is_of_priority,
    governed_has_greatest_presidents, priority_is_one, stock_stays_dealt, stock_stays_governed,
    stock_stays_solvent, stock_stays_sound, turn_is_at_the_table,
};

#[test]
fn laws_are_called() {
    turn_is_at_the_table();
    stock_stays_solvent();
    stock_stays_dealt();
    stock_stays_sound();
    auction_stays_within_half();
    auction_stays_governed();
    stock_stays_governed();
    governed_has_greatest_presidents();
    priority_is_one();
    first_turn_is_of_priority();
}
