//! What `trial` writes for some seeds, that it writes the same each time, and which numbers it refuses.

use crate::commands::{refuses, writes};
use qz_circ::Which;
use qz_top::Status;

// The numbers of a second implementation; the first one stands twice, since the same is written each time.
#[test]
fn writes_how_many_gates_there_are(rt: HostRuntime) {
    let eight_qubits = "trial 7 8 200\nbefore 200\nafter 192\n";
    let none = "trial 1 1 0\nbefore 0\nafter 0\n";
    let one_qubit = "trial 516752454805947347 1 30\nbefore 30\nafter 22\n";
    let padded = "trial 20058 8 30\nbefore 30\nafter 23\n";
    let all_qubits = "trial 20196 64 20\nbefore 20\nafter 19\n";
    let rows = [
        ("trial 7 8 200", eight_qubits),
        ("trial 7 8 200", eight_qubits),
        ("trial 1 1 0", none),
        ("trial 516752454805947347 1 30", one_qubit),
        ("trial 0020058 008 0030", padded),
        ("trial 20196 64 20", all_qubits),
    ];
    writes(&rt, rt.alloc(), &rows);
}

#[test]
fn refuses_trials_past_a_limit(rt: HostRuntime) {
    let qubits = Status::Limit(Which::TrialQubits);
    let rows = [
        ("trial 1 65 0", qubits),
        ("trial 1 0 0", qubits),
        ("trial 1 65 20001", qubits),
        ("trial 1 64 20001", Status::Limit(Which::TrialGates)),
        ("trial 1 65", Status::Usage),
        ("trial 1 65 x", Status::Usage),
        ("trial 1 1 0 --seed 1", Status::Usage),
        ("trial 1 1 0000000000000000000", Status::Usage),
    ];
    refuses(&rt, rt.alloc(), &rows);
}
