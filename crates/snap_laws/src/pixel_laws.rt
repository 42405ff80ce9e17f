//! What holds of all pixels and of all hot centres, as calls that do nothing.
ghost use Rattle.snap_laws.specs.PixelLaws.{
  AreOneList,
  CrossingsAreMet,
  EndsAreMet,
  EitherWayMeets,
};
ghost use Rattle.snap_laws.specs.PixelLaws.{PlacesHaveOnePixel, ScalesAreFree};

use snap_pixels::Segment;

/// Each place is in one pixel, and what a segment meets follows from its ends alone.
pub fn pixels_have_laws()
    ensures one { PlacesHaveOnePixel }
    ensures scales { ScalesAreFree }
    ensures ends { EndsAreMet }
    ensures crossings { CrossingsAreMet }
    ensures either_way { EitherWayMeets }
{}

/// Two lists of the hot centres of all the segments are one list.
pub fn hot_centres_have_laws(_segments: &[Segment])
    ensures { AreOneList _segments.now }
{}
