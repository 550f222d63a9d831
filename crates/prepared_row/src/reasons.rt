// Which row moved a bound last: a row that moved bounds is put down for them.
ghost use Rattle.std.specs.Prelude.{◌≡◌, ◌<◌, length, set};
ghost use Rattle.prepared_model.specs.RowReasons.{blame as blame_of, reason_at};
ghost use Rattle.prepared_row.specs.Blaming.{Blaming};

// Number i of the boxes.
fn blame_bound(i: usize, r: u32, old: &[i32], new: &[i32], reasons: &mut [u32])
    requires { (i < length old.now) × (i < length new.now) × (i < length reasons.old) }
    ensures { let R = reasons.old in
        reasons.new ≡ set R i (reason_at r old.now new.now R i) }
{
    if old[i] != new[i] {
        reasons[i] = r;
    }
}

// Row r, which the words say, made the box `new` of the box `old`: they differ only where it has a coefficient.
// Nothing is told to an empty list.
pub fn blame(words: &[u32], r: u32, old: &[i32], new: &[i32], reasons: &mut [u32])
    requires { Blaming words.now old.now new.now reasons.old }
    ensures { reasons.new ≡ blame_of r old.now new.now reasons.old }
{
    if reasons.is_empty() {
        return;
    }
    let mut j: usize = 0;
    // From word to word that is read: the step is not 1.
    while j < words.len() {
        blame_bound(2 * j, r, old, new, reasons);
        blame_bound(2 * j + 1, r, old, new, reasons);
        j += 1 + (words[j] % 128) as usize;
    }
}
