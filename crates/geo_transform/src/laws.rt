// What holds of frames, whatever code makes them.
ghost use Rattle.std.specs.Prelude.{◌≡◌, Ok};
ghost use Rattle.geo_transform.specs.Frame.{IsFrame, frame_or_fault, layout_of};
ghost use Rattle.geo_transform.specs.declared.frame.Frame.{Frame};

/// `Frame::make` accepts the numbers of each frame that calls may take.
pub fn makes_each_frame()
    ensures { (f : Frame) → IsFrame f → frame_or_fault (layout_of f) ≡ Ok f }
{}
