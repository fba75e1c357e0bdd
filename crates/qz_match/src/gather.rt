//! Gathering: whether the gates at some positions can be brought together.
ghost use Rattle.std.specs.Prelude.{◌≡◌, ℕ, ◌+◌, ◌<◌, ◌≤◌, ◌||◌, Bool, true, false, if◌then◌else◌, [], ◌∷◌, ◌++◌, length, take, drop, slice_index_or};
ghost use Rattle.std.specs.List.{AllByRecursion, list_any};
ghost use Rattle.qz_circ.specs.ProgramCircuits.{ProgramCircuit, IsProgramGate};
ghost use Rattle.qz_circ.specs.Gathering.{marked, gathers, is_on};
ghost use Rattle.qz_match.specs.Flags.{AreFlagsOf, is_flagged, Passes};
ghost use Rattle.qz_match.specs.Starts.{rises};
ghost use Rattle.qz_circ.specs.ProgramLimits.{most_qubits};

use qz_circ::Inst;

// A flag of one of the gate's qubits is set.
fn meets(flags: &[bool; 64], g: Inst) -> bool
    requires { IsProgramGate most_qubits g }
    ensures { result ≡ is_flagged flags.now g }
{
    match g {
        Inst::H(t) | Inst::X(t) | Inst::Rz(t, _) => flags[t as usize],
        Inst::Cx(c, t) => flags[c as usize] || flags[t as usize],
    }
}

// Sets the flags of the gate's qubits.
fn mark(flags: &mut [bool; 64], g: Inst)
    requires { IsProgramGate most_qubits g }
    ensures { (w : ℕ) → slice_index_or flags.new w false ≡ (if is_on w g then true else slice_index_or flags.old w false) }
{
    match g {
        Inst::H(t) | Inst::X(t) | Inst::Rz(t, _) => {
            flags[t as usize] = true;
        }
        Inst::Cx(c, t) => {
            flags[c as usize] = true;
            flags[t as usize] = true;
        }
    }
}

// A selected gate: it fails where the gate shares a qubit with one that comes after.
fn pass_selected(g: Inst, chosen: &mut [bool; 64], after: &[bool; 64]) -> bool
    requires { IsProgramGate most_qubits g }
    ensures { (xs ys : ProgramCircuit) → AreFlagsOf chosen.old xs → AreFlagsOf after.now ys → Passes true g xs ys chosen.new after.now result }
{
    if meets(after, g) {
        return false;
    }
    mark(chosen, g);
    true
}

// Another gate, which comes after where it shares a qubit with a selected gate or with one that comes after.
fn pass_other(g: Inst, chosen: &[bool; 64], after: &mut [bool; 64])
    requires { IsProgramGate most_qubits g }
    ensures { (xs ys : ProgramCircuit) → AreFlagsOf chosen.now xs → AreFlagsOf after.old ys → Passes false g xs ys chosen.now after.new true }
{
    if is_late(g, chosen, after) {
        mark(after, g);
    }
}

// The gate shares a qubit with a selected gate or with one that comes after.
fn is_late(g: Inst, chosen: &[bool; 64], after: &[bool; 64]) -> bool
    requires { IsProgramGate most_qubits g }
    ensures { result ≡ (is_flagged chosen.now g || is_flagged after.now g) }
{
    meets(chosen, g) || meets(after, g)
}

// The next gate, and whether gathering goes on.
fn pass(selected: bool, g: Inst, chosen: &mut [bool; 64], after: &mut [bool; 64]) -> bool
    requires { IsProgramGate most_qubits g }
    ensures { (xs ys : ProgramCircuit) → AreFlagsOf chosen.old xs → AreFlagsOf after.old ys → Passes selected g xs ys chosen.new after.new result }
{
    if selected {
        pass_selected(g, chosen, after)
    } else {
        pass_other(g, chosen, after);
        true
    }
}

// The number of the next position.
fn advanced(k: usize, selected: bool) -> usize
    requires { k < 6 }
    ensures { result ≡ (if selected then k + 1 else k) }
{
    if selected { k + 1 } else { k }
}

// No flag is set.
fn unmarked() -> [bool; 64]
    ensures { AreFlagsOf result [] }
{
    [false; 64]
}

/// The gates at the first positions gather. It looks at the gates from the first position to the last.
pub(crate) fn gather_at(c: &[Inst], found: &[usize; 6], count: usize) -> bool
    requires short { count ≤ 6 }
    requires some { 0 < count }
    requires lawful { AllByRecursion (IsProgramGate most_qubits) c.now }
    requires rising { rises 0 (length c.now) (take count found.now) ≡ true }
    ensures { result ≡ gathers [] [] (marked 0 (take count found.now) c.now) }
{
    let mut chosen = unmarked();
    let mut after = unmarked();
    let mut x = found[0];
    let mut k = 0;
    while k < count {
        let selected = found[k] == x;
        if !pass(selected, c[x], &mut chosen, &mut after) {
            return false;
        }
        k = advanced(k, selected);
        x += 1;
    }
    true
}
