//! The laws of corporations' turns, each called once.
use rr_laws::turns::laws::{
    lawful_commands_are_of_turns, plays_of_turns_keep_good_order, revenue_is_never_negative,
    turns_keep_good_order,
};

#[test]
fn laws_of_turns_are_called() {
    lawful_commands_are_of_turns();
    turns_keep_good_order();
    revenue_is_never_negative();
    plays_of_turns_keep_good_order();
}

#[test]
fn law_of_good_order_is_called() {
    rr_laws::soundness::laws::good_order_has_greatest_presidents();
}
