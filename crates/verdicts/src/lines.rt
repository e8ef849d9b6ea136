// Where the lines of a lent file stand.
ghost use Rattle.std.specs.Prelude.{◌≡◌, take};
ghost use Rattle.verdicts.specs.inner.Scan.{content_start};

use rulefiles::bom_length;

// The rules up to the end of a file: for the place of a value they are counted from their start, so it is no part of them.
pub fn rules_upto(rules: &[u8], end: usize) -> &[u8]
    ensures { result.now ≡ take end rules.now }
{
    rules.get(..end).unwrap_or(rules)
}

// Where the lines of a file start, after its BOM.
pub fn content_start(upto: &[u8], start: usize) -> usize
    ensures { result ≡ content_start upto.now start }
{
    if start <= upto.len() {
        return start + bom_length(&upto[start..]);
    }
    start
}
