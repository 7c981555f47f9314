ghost use Rattle.std.specs.Prelude.{◌≡◌};
ghost use Rattle.script.specs.Comments.{uncommented};

// The line as far as its comment, which starts at the first `#`.
pub(crate) fn without_comment(line: &str) -> &str
    ensures { result.now ≡ uncommented line.now }
{
    line.split_once('#').map_or(line, |(before, _)| before)
}
