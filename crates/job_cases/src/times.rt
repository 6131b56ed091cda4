use anyhow::{Context, Result, bail};

// The times that the units tell.
#[derive(Clone, Copy)]
pub(crate) struct Times {
    pub(crate) tape: u16,
    pub(crate) disk: u16,
    pub(crate) reader: u16,
    pub(crate) punch: u16,
    pub(crate) printer: u16,
}

// Times that differ from kind to kind.
pub(crate) const USUAL: Times = Times {
    tape: 20,
    disk: 30,
    reader: 80,
    punch: 100,
    printer: 60,
};

impl Times {
    // The times of a text such as `reader 0, tape 3`; of what it does not name they are the usual ones.
    pub(crate) fn read(text: &str) -> Result<Times> {
        let mut times = USUAL;
        for pair in text.split(',') {
            let (unit, time) = pair.trim().split_once(' ').context("no time")?;
            times.set(unit, time.trim().parse::<u16>()?)?;
        }
        Ok(times)
    }

    // The time of the units of one kind, or of all.
    fn set(&mut self, unit: &str, time: u16) -> Result<()> {
        match unit {
            "tape" => self.tape = time,
            "disk" => self.disk = time,
            "reader" => self.reader = time,
            "punch" => self.punch = time,
            "printer" => self.printer = time,
            "all" => *self = Times::all(time),
            _ => bail!("no such unit: {unit}"),
        }
        Ok(())
    }

    // One time for all units.
    fn all(time: u16) -> Times {
        Times {
            tape: time,
            disk: time,
            reader: time,
            punch: time,
            printer: time,
        }
    }
}
