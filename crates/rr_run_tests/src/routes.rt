//! The laws of routes, and how many nodes a certificate has.
use rr_routes::sheets::read_certificate;
use rr_routes::{CertTree, MOST_NODES, laws};

#[test]
fn laws_are_called() {
    laws::optimal();
    laws::greatest_values();
    laws::same_links();
    laws::full_leaves();
    laws::splits();
    laws::most_nodes();
    laws::worked_rows();
    laws::refused_rows();
}

// A tree of seven nodes, in which splits are the last children of splits.
#[test]
fn nodes_are_counted(rt: HostRuntime) {
    let rt = &rt;
    let tree = read_certificate(rt.alloc(), 1, b"s5 f s1 b s4 x1 x1").expect(rt, "a certificate");
    let left = [
        tree.nodes_left(MOST_NODES),
        tree.nodes_left(7),
        tree.nodes_left(6),
        CertTree::Full.nodes_left(0),
    ];
    assert!(rt; left == [Some(4089), Some(0), None, None]);
}
