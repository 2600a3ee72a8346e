//! Worked proofs, and what they become or why they are refused.

use crate::converting::convert;
use crate::fault::Rule;
use std::alloc::{AllocError, Global};
use std::test::Fail;

/// What becomes of a text.
#[derive(Clone, Copy)]
enum Wanted {
    /// This text, with so many records.
    Becomes(&'static [u8], u64),
    /// It is refused at this line by this rule.
    Refused(u64, Rule),
}

/// Texts of which a chain is needed to the end of its part, by a later chain, by the refutation, and by the chain that a diary
/// puts; and texts that are no proof of the first format.
const ROWS: [(&[u8], Wanted); 12] = [
    (
        b"smt_proof 1 cubes 0 budget 5\n",
        Wanted::Becomes(b"smt_proof 2 cubes 0 budget 5\n", 0),
    ),
    (
        b"smt_proof 1 cubes 0 budget 5\nf 0\ns 0\nc -3 0 2.0\nunsat 3\nsat 0\n",
        Wanted::Becomes(
            b"smt_proof 2 cubes 0 budget 5\nf 0\ns 0\nc -3 0 2.0\nunsat 3\nd 3\nsat 0\n",
            2,
        ),
    ),
    (
        b"smt_proof 1 cubes 1 budget 0\nf 0\nc 2 0\nsat 0\nc 2 0 2.0\nunsat 3\nl w 1\nsat 0\nsat 0\n",
        Wanted::Becomes(
            b"smt_proof 2 cubes 1 budget 0\nf 0\nc 2 0\nsat 0\nc 2 0 2.0\nunsat 3\nd 2 3\nl w 1\nsat 0\nd 4\nsat 0\n",
            4,
        ),
    ),
    (
        b"smt_proof 1 cubes 0 budget 0\nc 2 0\nc 3 0 1.0\nunsat 2\nunknown 0 3 1\n+ 2\nsat 1\nv 0 true\n",
        Wanted::Becomes(
            b"smt_proof 2 cubes 0 budget 0\nc 2 0\nc 3 0 1.0\nunsat 2\nunknown 0 3 1\n+ 2\nd 1 2\nsat 1\nv 0 true\n",
            3,
        ),
    ),
    (b"", Wanted::Refused(1, Rule::Header)),
    (
        b"smt_proof 2 cubes 0 budget 5\n",
        Wanted::Refused(1, Rule::Header),
    ),
    (
        b"smt_proof 1 cubes 11 budget 5\n",
        Wanted::Refused(1, Rule::Header),
    ),
    (
        b"smt_proof 1 cubes 0 budget 5\nf 0\n",
        Wanted::Refused(3, Rule::End),
    ),
    (
        b"smt_proof 1 cubes 0 budget 5\nf 0",
        Wanted::Refused(2, Rule::Line),
    ),
    (
        b"smt_proof 1 cubes 0 budget 5\nd 1\n",
        Wanted::Refused(2, Rule::Line),
    ),
    (
        b"smt_proof 1 cubes 0 budget 5\nunknown 0 1 2\n+ 1\nsat 0\n",
        Wanted::Refused(4, Rule::Line),
    ),
    (
        b"smt_proof 1 cubes 0 budget 5\nsat 1\n",
        Wanted::Refused(3, Rule::End),
    ),
];

fn is_so(alloc: Global, text: &[u8], wanted: Wanted) -> Result<bool, AllocError> {
    let answer = convert(alloc, text)?;
    let so = match (&answer, wanted) {
        (Ok(converted), Wanted::Becomes(proof, records)) => {
            converted.proof.as_slice() == proof && converted.records == records
        }
        (Err(fault), Wanted::Refused(line, rule)) => fault.line == line && fault.rule == rule,
        _ => false,
    };
    drop(answer);
    Ok(so)
}

#[test]
fn proofs_are_converted_or_refused_by_their_lines(rt: HostRuntime) -> Result<(), Fail> {
    let alloc = rt.alloc();
    for (text, wanted) in ROWS.iter() {
        assert!(rt; is_so(alloc, text, *wanted) == Ok(true));
    }
    Ok(())
}
