//! Laws of sequence numbers and time.
ghost use Rattle.epx_laws.specs.TimeLaws.{LowerSequenceComesFirst, TimeIsKept};

/// An instance comes after each one that it reaches and that has a lower sequence number.
pub fn lower_sequence_comes_first()
    ensures { LowerSequenceComesFirst }
{}

/// Where logs respect time, of two commands that conflict the one that was committed before the
/// other was proposed is executed first.
pub fn time_is_kept()
    ensures { TimeIsKept }
{}
