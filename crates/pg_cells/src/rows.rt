//! Small touches that were worked out by hand: laws, which do nothing when they run.

ghost use Rattle.pg_cells.specs.Rows.{FirstTouch, FirstCell, TouchedAgain, OtherGates, OtherCell, AfterWrite, NotDone, WriteOverWrite, WriteElsewhere, TwoAgree, ApartByConstants, WrittenInOrder};

/// What touches make of words of one bit, at an address that is an input and at one that is a constant.
pub fn worked_touches()
    ensures first_touch { FirstTouch }
    ensures first_cell { FirstCell }
    ensures touched_again { TouchedAgain }
    ensures other_gates { OtherGates }
    ensures other_cell { OtherCell }
    ensures after_write { AfterWrite }
    ensures not_done { NotDone }
    ensures write_over_write { WriteOverWrite }
    ensures write_elsewhere { WriteElsewhere }
    ensures two_agree { TwoAgree }
    ensures apart_by_constants { ApartByConstants }
    ensures written_in_order { WrittenInOrder }
{}
