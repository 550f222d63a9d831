// The lent list that tells of each bound the row that moved it last.
ghost use Rattle.std.specs.Prelude.{◌≡◌, length, replicate};
ghost use Rattle.prepared_model.specs.Reasons.{no_row};

// No row did. The C interface has this number where there is no row.
pub const NO_ROW: u32 = 4_294_967_295;

// No row moved anything yet.
pub fn no_reasons(reasons: &mut [u32])
    ensures { reasons.new ≡ replicate (length reasons.old) no_row }
{
    reasons.fill(NO_ROW);
}
