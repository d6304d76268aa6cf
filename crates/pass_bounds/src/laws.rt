//! What holds of the records of every log and of every legal history. Each function carries laws in its contract and
//! does nothing.
ghost use Rattle.pass_bounds.specs.Lawful.{FrameLaw, ImageLaw, InRangeLaw, LengthLaw, OpenedLaw, RunLaw};

use pass_graph::bounds::lists;

/// The records of a log take no more bytes than it has, so that its end bounds the numbers and the versions that they say.
pub fn logs()
    ensures image { ImageLaw }
    ensures opened { OpenedLaw }
{
    lists();
}

/// The records of a history are within their ranges, and an entry has few bytes of them.
pub fn histories()
    ensures ranges { InRangeLaw }
    ensures lengths { LengthLaw }
{}

/// A run of a trace has few entries and few bytes of records, so that one frame of the log holds them.
pub fn runs()
    ensures lengths { RunLaw }
    ensures frame { FrameLaw }
{
    lists();
}
