//! Texts that tests of several crates use.
#![tactic(auto)]

use std::alloc::{AllocError, Global};

/// The rules of the identities of at most two gates on one qubit.
pub fn two_gates() -> &'static str {
    "quartz-rules 1\n\
bounds 2 1 0\n\
classes 17\n\
class 10\n\
-\n\
h 0;h 0\n\
x 0;x 0\n\
rz(1) 0;rz(7) 0\n\
rz(2) 0;rz(6) 0\n\
rz(3) 0;rz(5) 0\n\
rz(4) 0;rz(4) 0\n\
rz(5) 0;rz(3) 0\n\
rz(6) 0;rz(2) 0\n\
rz(7) 0;rz(1) 0\n\
class 7\n\
rz(1) 0\n\
rz(2) 0;rz(7) 0\n\
rz(3) 0;rz(6) 0\n\
rz(4) 0;rz(5) 0\n\
rz(5) 0;rz(4) 0\n\
rz(6) 0;rz(3) 0\n\
rz(7) 0;rz(2) 0\n\
class 7\n\
rz(2) 0\n\
rz(1) 0;rz(1) 0\n\
rz(3) 0;rz(7) 0\n\
rz(4) 0;rz(6) 0\n\
rz(5) 0;rz(5) 0\n\
rz(6) 0;rz(4) 0\n\
rz(7) 0;rz(3) 0\n\
class 7\n\
rz(3) 0\n\
rz(1) 0;rz(2) 0\n\
rz(2) 0;rz(1) 0\n\
rz(4) 0;rz(7) 0\n\
rz(5) 0;rz(6) 0\n\
rz(6) 0;rz(5) 0\n\
rz(7) 0;rz(4) 0\n\
class 7\n\
rz(4) 0\n\
rz(1) 0;rz(3) 0\n\
rz(2) 0;rz(2) 0\n\
rz(3) 0;rz(1) 0\n\
rz(5) 0;rz(7) 0\n\
rz(6) 0;rz(6) 0\n\
rz(7) 0;rz(5) 0\n\
class 7\n\
rz(5) 0\n\
rz(1) 0;rz(4) 0\n\
rz(2) 0;rz(3) 0\n\
rz(3) 0;rz(2) 0\n\
rz(4) 0;rz(1) 0\n\
rz(6) 0;rz(7) 0\n\
rz(7) 0;rz(6) 0\n\
class 7\n\
rz(6) 0\n\
rz(1) 0;rz(5) 0\n\
rz(2) 0;rz(4) 0\n\
rz(3) 0;rz(3) 0\n\
rz(4) 0;rz(2) 0\n\
rz(5) 0;rz(1) 0\n\
rz(7) 0;rz(7) 0\n\
class 7\n\
rz(7) 0\n\
rz(1) 0;rz(6) 0\n\
rz(2) 0;rz(5) 0\n\
rz(3) 0;rz(4) 0\n\
rz(4) 0;rz(3) 0\n\
rz(5) 0;rz(2) 0\n\
rz(6) 0;rz(1) 0\n\
class 2\n\
h 0;x 0\n\
rz(4) 0;h 0\n\
class 2\n\
h 0;rz(4) 0\n\
x 0;h 0\n\
class 2\n\
x 0;rz(1) 0\n\
rz(7) 0;x 0\n\
class 2\n\
x 0;rz(2) 0\n\
rz(6) 0;x 0\n\
class 2\n\
x 0;rz(3) 0\n\
rz(5) 0;x 0\n\
class 2\n\
x 0;rz(4) 0\n\
rz(4) 0;x 0\n\
class 2\n\
x 0;rz(5) 0\n\
rz(3) 0;x 0\n\
class 2\n\
x 0;rz(6) 0\n\
rz(2) 0;x 0\n\
class 2\n\
x 0;rz(7) 0\n\
rz(1) 0;x 0\n\
end\n"
}

/// Two registers of qubits, one of bits, and a tail.
pub fn two_registers() -> &'static [u8] {
    b"OPENQASM 2.0;\n\
include \"qelib1.inc\";\n\
qreg q[2];\n\
qreg a[1];\n\
creg c[2];\n\
h q[0];\n\
ccx q[0],q[1],a[0];\n\
barrier q[0],q[1],a[0];\n\
measure q[0] -> c[0];\n\
measure q[1] -> c[1];\n"
}

/// The canonical text of H on the first qubit and a doubly controlled NOT of the third.
pub fn measured_lines() -> &'static [u8] {
    b"OPENQASM 2.0;\n\
include \"qelib1.inc\";\n\
qreg q[2];\n\
qreg a[1];\n\
creg c[2];\n\
h q[0];\n\
h a[0];\n\
cx q[1],a[0];\n\
rz(-pi/4) a[0];\n\
cx q[0],a[0];\n\
rz(pi/4) a[0];\n\
cx q[1],a[0];\n\
rz(-pi/4) a[0];\n\
cx q[0],a[0];\n\
rz(pi/4) q[1];\n\
rz(pi/4) a[0];\n\
h a[0];\n\
cx q[0],q[1];\n\
rz(pi/4) q[0];\n\
rz(-pi/4) q[1];\n\
cx q[0],q[1];\n\
barrier q[0],q[1],a[0];\n\
measure q[0] -> c[0];\n\
measure q[1] -> c[1];\n"
}

/// The words of this text, which are parted by single spaces.
pub fn words_of(alloc: Global, text: &str) -> Result<Vec<String>, AllocError> {
    let mut words = Vec::new(alloc);
    for word in text.split(' ') {
        words.push(String::from_str(alloc, word)?)?;
    }
    Ok(words)
}
