//! What holds of every text that is written, and read again, as a call that does nothing.
ghost use Rattle.cif_laws.specs.Laws.{
  BoxesAreReadBack,
  WhatIsReadIsWrittenTheSame,
  WhatIsWrappedIsSound,
  WhatIsWrittenIsReadBack,
};
ghost use Rattle.cif_laws.specs.Named.{NamesChangeNothing, NamesStandApart};
ghost use Rattle.cif_laws.specs.SameRings.{SameRingsHoldTheSamePlaces};

/// What is written of a layout is read back as that layout, wrapped. That is a sound layout, and is written
/// by the same text.
pub fn what_is_written_is_read_back()
    ensures again { WhatIsWrittenIsReadBack }
    ensures sound { WhatIsWrappedIsSound }
    ensures same { WhatIsReadIsWrittenTheSame }
{}

/// What is written with boxes is read back as that layout too, wrapped, but for where its rings begin and which way
/// they run. Each place is inside both such rings, or inside neither.
pub fn boxes_are_read_back()
    ensures again { BoxesAreReadBack }
    ensures places { SameRingsHoldTheSamePlaces }
{}

/// No line of what is written of a layout begins with `9 `, `94 ` or a space. So with the lines of names and labels in it, and then
/// without such lines again, it is what it was; and with them it is read back as the layout, wrapped.
pub fn names_change_nothing()
    ensures apart { NamesStandApart }
    ensures read { NamesChangeNothing }
{}
