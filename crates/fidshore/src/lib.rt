// The calls of the C loader, and nothing else: numbers and byte slices in, one code number out. For a user: docs/RULES.md, "Answers".
#![tactic(auto)]

ghost use Rattle.fidshore.specs.Codes.{MatchCode, IgnoreCode, AttributeCode};

use answers::{attribute_code, ignore_code};
use questions::attribute::attribute;
use questions::ignore::ignore;
use rulefiles::RuleFiles;
use wildmatch::{code_of, wildmatch};

// The matcher: 0 no match, 1 match, 2 a broken pattern, or 16 plus a refusal's number. Flags: 1 = path mode, 2 = fold case.
#[unsafe(no_mangle)]
pub extern "C" fn fidshore_match(pattern: &[u8], text: &[u8], flags: u64) -> u32
    ensures { MatchCode pattern.now text.now flags result }
{
    code_of(wildmatch(pattern, text, flags))
}

// The ignore question over one file of base 0: 0 nothing said, 1 ignored, 2 re-included, or 16 plus a refusal's number.
// Flags: 1 = directory, 2 = fold case.
#[unsafe(no_mangle)]
pub extern "C" fn fidshore_ignore(rules: &[u8], path: &[u8], flags: u64) -> u32
    ensures { IgnoreCode path.now rules.now flags result }
{
    let ends = [rules.len()];
    let bases = [0usize];
    let file = RuleFiles {
        rules,
        ends: &ends,
        bases: &bases,
    };
    ignore_code(ignore(path, &file, flags))
}

// The attribute question over one file of base 0: 0 nothing said, 1 set, 2 unset, 3 value, 4 unspecified by a line, or 16 plus a refusal's
// number. Flags: 1 = directory, 2 = fold case.
#[unsafe(no_mangle)]
pub extern "C" fn fidshore_attribute(rules: &[u8], path: &[u8], name: &[u8], flags: u64) -> u32
    ensures { AttributeCode path.now rules.now name.now flags result }
{
    let ends = [rules.len()];
    let bases = [0usize];
    let one = RuleFiles {
        rules,
        ends: &ends,
        bases: &bases,
    };
    attribute_code(attribute(path, &one, name, flags))
}
