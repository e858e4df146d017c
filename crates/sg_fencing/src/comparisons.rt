//! Laws of VERIFY (SBC-3, 5.29 to 5.31).
ghost use Rattle.sg_fencing.specs.Comparisons.{VerifiesCompareTheirBlocks};

/// A VERIFY that compares its blocks with data-out ends with GOOD only if they are the bytes of the
/// data-out. It never changes a block or its provisioning status.
pub fn verifies_compare_their_blocks()
    ensures { VerifiesCompareTheirBlocks }
{}
