// The four columns of emissions, cleared.
ghost use Rattle.emissions.specs.Emissions.{Cleared};

pub fn clear_columns(times: &mut [u64], firsts: &mut [u64], seconds: &mut [u64], diffs: &mut [i64])
    ensures { Cleared times.old firsts.old seconds.old diffs.old times.new firsts.new seconds.new diffs.new }
{
    times.fill(0);
    firsts.fill(0);
    seconds.fill(0);
    diffs.fill(0);
}
