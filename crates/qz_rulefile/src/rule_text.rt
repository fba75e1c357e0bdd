//! The text of rule files.
ghost use Rattle.std.specs.Prelude.{◌≡◌, ◌<◌, ◌++◌, true, map, length, codes, OnOk, IfOk};
ghost use Rattle.std.specs.Fmt.{decimal};
ghost use Rattle.qz_circ.specs.Bounds.{is_grain};
ghost use Rattle.qz_circ.specs.ClassLists.{AreRanks};
ghost use Rattle.qz_circ.specs.Order.{all_circuits, circuit_at};
ghost use Rattle.qz_circ.specs.Lines.{line};
ghost use Rattle.qz_circ.specs.RuleText.{expression_text, gate_text, circuit_text, head_of, head_text, member_text, class_text, rule_text};

use itoa::Buffer;
use qz_circ::{Bounds, Classes, Expr, Memory, Op, multiple_of, unrank};
use std::alloc::{AllocError, Global};

// Appends some letters and a number.
fn push_part(out: &mut Vec<u8>, letters: &[u8], n: u64) -> Result<(), AllocError>
    ensures { OnOk result (out.new.items ≡ out.old.items ++ letters.now ++ decimal n) }
{
    out.extend_from_slice(letters)?;
    let mut buffer = Buffer::new();
    out.extend_from_slice(buffer.format(n).as_bytes())
}

// Appends a line of some letters and a number.
fn push_count(out: &mut Vec<u8>, letters: &[u8], n: u64) -> Result<(), AllocError>
    ensures { OnOk result (out.new.items ≡ out.old.items ++ line (letters.now ++ decimal n)) }
{
    push_part(out, letters, n)?;
    out.push(b'\n')?;
    Ok(())
}

#[tactic(auto, unfolding(qz_circ::specs::RuleText::expression_text))]
fn push_angle(out: &mut Vec<u8>, e: Expr, grain: u64) -> Result<(), AllocError>
    requires { is_grain grain ≡ true }
    ensures { OnOk result (out.new.items ≡ out.old.items ++ expression_text grain e) }
{
    match e {
        Expr::Const(t) => push_part(out, b"", multiple_of(t, grain)),
        Expr::Plus(i) => push_part(out, b"p", i as u64),
        Expr::Minus(i) => push_part(out, b"-p", i as u64),
        Expr::Sum(i, j) => {
            push_part(out, b"p", i as u64)?;
            push_part(out, b"+p", j as u64)
        }
    }
}

#[tactic(auto, unfolding(qz_circ::specs::RuleText::gate_text))]
pub(crate) fn push_gate(out: &mut Vec<u8>, g: Op, grain: u64) -> Result<(), AllocError>
    requires { is_grain grain ≡ true }
    ensures { OnOk result (out.new.items ≡ out.old.items ++ gate_text grain g) }
{
    match g {
        Op::H(t) => push_part(out, b"h ", t as u64),
        Op::X(t) => push_part(out, b"x ", t as u64),
        Op::Cx(c, t) => {
            push_part(out, b"cx ", c as u64)?;
            push_part(out, b" ", t as u64)
        }
        Op::Rz(t, e) => {
            out.extend_from_slice(b"rz(")?;
            push_angle(out, e, grain)?;
            push_part(out, b") ", t as u64)
        }
    }
}

#[tactic(auto, unfolding(qz_circ::specs::RuleText::circuit_text))]
fn push_circuit(out: &mut Vec<u8>, c: &[Op], grain: u64) -> Result<(), AllocError>
    requires { is_grain grain ≡ true }
    ensures { OnOk result (out.new.items ≡ out.old.items ++ circuit_text grain c.now) }
{
    let [first, rest @ ..] = c else {
        out.push(b'-')?;
        return Ok(());
    };
    push_gate(out, *first, grain)?;
    for g in rest {
        out.push(b';')?;
        push_gate(out, *g, grain)?;
    }
    Ok(())
}

// The numbers of gates, qubits and parameters behind the word of their line.
fn push_numbers(out: &mut Vec<u8>, b: Bounds) -> Result<(), AllocError>
    ensures { OnOk result (out.new.items ≡ out.old.items ++ codes "bounds " ++ decimal b.n ++ codes " " ++ decimal b.q ++ codes " " ++ decimal b.m) }
{
    push_part(out, b"bounds ", b.n())?;
    push_part(out, b" ", b.q())?;
    push_part(out, b" ", b.m())
}

fn push_head(out: &mut Vec<u8>, b: Bounds) -> Result<(), AllocError>
    ensures { OnOk result (out.new.items ≡ out.old.items ++ head_text (head_of b)) }
{
    let grain = b.grain();
    if grain == 4 {
        out.extend_from_slice(b"quartz-rules 1\n")?;
        push_numbers(out, b)?;
        out.push(b'\n')?;
        return Ok(());
    }
    out.extend_from_slice(b"quartz-rules 2\n")?;
    push_numbers(out, b)?;
    push_part(out, b" ", grain)?;
    out.push(b'\n')?;
    Ok(())
}

#[tactic(auto, unfolding(qz_circ::specs::RuleText::member_text))]
fn push_member(alloc: Global, out: &mut Vec<u8>, b: Bounds, r: u64) -> Result<(), AllocError>
    requires { r < length (all_circuits b) }
    ensures { OnOk result (out.new.items ≡ out.old.items ++ member_text b.grain (circuit_at b r)) }
{
    let Ok(circuit) = unrank(alloc, r, b) else {
        return Err(AllocError);
    };
    push_circuit(out, &circuit, b.grain())?;
    out.push(b'\n')?;
    Ok(())
}

#[tactic(auto, unfolding(qz_circ::specs::RuleText::class_text))]
fn push_class(
    alloc: Global,
    out: &mut Vec<u8>,
    b: Bounds,
    members: &[u64],
) -> Result<(), AllocError>
    requires { AreRanks b members.now }
    ensures { OnOk result (out.new.items ≡ out.old.items ++ class_text b.grain (map (circuit_at b) members.now)) }
{
    push_count(out, b"class ", members.len() as u64)?;
    for r in members {
        push_member(alloc, out, b, *r)?;
    }
    Ok(())
}

// The whole text.
#[tactic(auto, unfolding(qz_circ::specs::RuleText::rule_text))]
fn text_of(alloc: Global, k: &Classes) -> Result<Vec<u8>, AllocError>
    ensures { IfOk result (λ text. text.items ≡ rule_text k.now.bounds k.now.lists) }
{
    let mut out = Vec::new(alloc);
    push_head(&mut out, k.bounds())?;
    push_count(&mut out, b"classes ", k.len())?;
    for i in 0..k.len() {
        push_class(alloc, &mut out, k.bounds(), k.class(i))?;
    }
    out.extend_from_slice(b"end\n")?;
    Ok(out)
}

/// The text of the rule file of these classes.
pub fn print(alloc: Global, k: &Classes) -> Result<Vec<u8>, Memory>
    ensures { IfOk result (λ text. text.items ≡ rule_text k.now.bounds k.now.lists) }
{
    text_of(alloc, k).map_err(|_| Memory)
}
