ghost use Rattle.std.specs.Prelude.{◌≡◌, ◌==◌, not};
ghost use Rattle.sv_io.specs.Stages.{is_at_end, may_read};

/// Where a source stands: it isn't open, may be read, met its end, or failed.
#[derive(Clone, Copy)]
pub(crate) enum Stage {
    Closed,
    Reading,
    AtEnd,
    Failed,
}

impl Stage {
    /// Where it stands behind a read that gave so many bytes.
    pub(crate) fn behind(count: usize) -> Stage
        ensures end { is_at_end result ≡ (count == 0) }
        ensures more { may_read result ≡ not (count == 0) }
    {
        if count == 0 {
            Stage::AtEnd
        } else {
            Stage::Reading
        }
    }
}
