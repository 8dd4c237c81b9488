// A whole link in rehearsal: a base and two carriages, with lost keys, a late copy, a damaged order and a forged one.

#![tactic(auto)]

mod bed;
mod carriage;
mod options;
mod recording;
mod rehearsal;
mod saving;
mod sent;

use anyhow::ensure;
use base::Schedule;
use bed::{Bed, SCHEDULE};
use carriage::{Carriage, Clock};
use options::capture_file;
use rehearsal::Rehearsal;

fn run(rt: &HostRuntime) -> anyhow::Result<()> {
    let file = capture_file(rt)?;
    let mut bed = Bed::new()?;
    let Schedule {
        start,
        duration,
        delay,
    } = SCHEDULE;
    println!(rt;
        "The base starts at {start}; an interval lasts {duration}; keys are disclosed {delay} intervals later."
    )?;
    let mut a = Carriage::join(rt, &mut bed, "carriage A", Clock(-300_000), 1_050_000)?;
    let early = bed.disclose(rt, 1_300_500)?;
    a.hear_key(rt, 1_300_600, &early)?;
    let b = Carriage::join(rt, &mut bed, "carriage B", Clock(5_000_000), 1_310_000)?;
    let mut rehearsal = Rehearsal { rt, bed, a, b };
    rehearsal.orders()?;
    let key = rehearsal.bed.disclose(rt, 1_700_500)?;
    rehearsal.a.hear_key(rt, 1_700_600, &key)?;
    rehearsal.b.hear_key(rt, 1_700_600, &key)?;
    rehearsal.a.hear_key(rt, 1_700_700, &early)?;
    rehearsal.a.show_log(rt)?;
    rehearsal.b.show_log(rt)?;
    ensure!(
        rehearsal.a.same_log(&rehearsal.b),
        "the released lists differ"
    );
    println!(rt; "Both released lists are equal.")?;
    if let Some(file) = file {
        rehearsal.a.save(rt, file.as_str())?;
    }
    Ok(())
}

fn main(rt: HostRuntime) -> anyhow::Result<()> {
    run(&rt)
}
