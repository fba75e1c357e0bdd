//! Reads the text of a program.
ghost use Rattle.std.specs.Prelude.{◌≡◌, ◌≢◌, ◌⊎◌, ◌<◌, ◌^◌, length, Err, IfOk};
ghost use Rattle.qz_circ.specs.FirstFault.{GivesUnless, Gives, fault_as};
ghost use Rattle.qz_circ.specs.Tokens.{tokens_of};
ghost use Rattle.qz_circ.specs.Grammar.{program_of, program_from, with_statements};
ghost use Rattle.qz_circ.specs.Lexemes.{lexeme, lexemes, statements_of};
ghost use Rattle.qz_qread.specs.Stated.{header_of};
ghost use Rattle.qz_circ.specs.ValidPrograms.{Valid};
ghost use Rattle.qz_qread.specs.Spelled.{AreSpelled};

use crate::form::header_form;
use crate::lexeme::{statement_len, text_of};
use crate::statement::add_statement;
use qz_circ::{LexFault, Program, QasmFault, Token};
use qz_lex::tokens;
use std::alloc::Global;

// The header, of version 2.0.
fn header(bytes: &[u8], ts: &[Token]) -> Result<Token, QasmFault>
    ensures { Gives (lexeme bytes.now) result (header_of (length bytes.now) (lexemes bytes.now ts.now)) }
{
    let version = header_form(bytes, ts)?;
    if text_of(bytes, version) == b"2.0".as_slice() {
        Ok(version)
    } else {
        Err(QasmFault::Unsupported {
            place: u64::from(version.start),
        })
    }
}

// Adds what all statements state, one after the other.
fn add_statements(
    alloc: Global,
    bytes: &[u8],
    p: &mut Program,
    ts: &[Token],
) -> Result<(), QasmFault>
    requires valid { Valid p.old }
    requires spelled { AreSpelled (lexemes bytes.now ts.now) }
    ensures { GivesUnless QasmFault.Memory (λ _. p.new) result (with_statements (length bytes.now) p.old (statements_of (lexemes bytes.now ts.now))) }
{
    let mut count = 0;
    while count < ts.len() {
        let (_, rest) = ts.split_at(count);
        let len = statement_len(rest);
        let (first, _) = rest.split_at(len);
        match add_statement(alloc, bytes, p, first) {
            Ok(()) => count += len,
            Err(fault) => return Err(fault),
        }
    }
    Ok(())
}

// The program of a text that is cut into these tokens.
#[tactic(auto, unfolding(qz_circ::specs::Grammar::program_from), using(crate::proofs::StatementSteps::no_tokens))]
fn program(alloc: Global, bytes: &[u8], ts: &[Token]) -> Result<Program, QasmFault>
    requires { AreSpelled (lexemes bytes.now ts.now) }
    ensures { GivesUnless QasmFault.Memory (λ p. p) result (program_from (length bytes.now) (statements_of (lexemes bytes.now ts.now))) }
{
    if ts.is_empty() {
        return Err(QasmFault::Syntax {
            place: bytes.len() as u64,
        });
    }
    let (first, rest) = ts.split_at(statement_len(ts));
    header(bytes, first)?;
    let mut p = Program::empty(alloc);
    add_statements(alloc, bytes, &mut p, rest)?;
    Ok(p)
}

// The tokens of a text.
fn cut(alloc: Global, bytes: &[u8]) -> Result<Vec<Token>, QasmFault>
    requires { length bytes.now < 2 ^ 32 }
    ensures { GivesUnless QasmFault.Memory (λ v. v.items) result (fault_as QasmFault.Lex (tokens_of bytes.now)) }
{
    match tokens(alloc, bytes) {
        Ok(ts) => Ok(ts),
        Err(LexFault::Memory) => Err(QasmFault::Memory),
        Err(fault) => Err(QasmFault::Lex(fault)),
    }
}

/// The program that a text is, or its first fault.
#[tactic(auto, unfolding(qz_circ::specs::Grammar::program_of))]
pub fn read(alloc: Global, bytes: &[u8]) -> Result<Program, QasmFault>
    requires { length bytes.now < 2 ^ 32 }
    // What is answered is the definition's program or its fault, unless memory ran out.
    ensures exact { GivesUnless QasmFault.Memory (λ p. p) result (program_of bytes.now) }
    // Where the definition has a fault, it is answered, unless memory ran out.
    ensures faults { (e : QasmFault) → program_of bytes.now ≡ Err e → (result ≡ Err e) ⊎ (result ≡ Err QasmFault.Memory) }
    // The program is one whose text can be written.
    ensures valid { IfOk result Valid }
    // Want of memory is answered as such alone, and never as a fault of tokens.
    ensures memory_alone { result ≢ Err (QasmFault.Lex LexFault.Memory) }
{
    match cut(alloc, bytes) {
        Ok(ts) => program(alloc, bytes, &ts),
        Err(fault) => Err(fault),
    }
}
