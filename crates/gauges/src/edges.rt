//! Edges of the gauges' ranges and texts, by value.
#[cfg(test)]
mod tests {
    use crate::barring::Barring;
    use crate::both::Both;
    use crate::current::Current;
    use crate::entry::{Entries, Entry};
    use crate::event::Event;
    use signature::gauge::{Gauge, WrittenGauge};
    use std::process::Abort;
    use std::test::Fail;
    use text::refusal::{Layer, Refusal};

    // The word of each code with the text in slot 31.
    fn codes(rt: &impl Abort, text: &[u8], cases: &[(u8, u32)]) -> Result<(), Fail> {
        let mut gauge = Event::new();
        gauge.write_slot(31, text, 0)?;
        for case in cases {
            assert_eq!(rt; gauge.try_reading(&case.0), case.1);
        }
        Ok(())
    }

    // The word of each current with the text in slot 0.
    fn currents(rt: &impl Abort, text: &[u8], cases: &[(i32, u32)]) -> Result<(), Fail> {
        let mut gauge = Current::new();
        gauge.write_slot(0, text, 0)?;
        for case in cases {
            assert_eq!(rt; gauge.try_reading(&case.0), case.1);
        }
        Ok(())
    }

    // The text of a current slot is refused.
    fn refused(rt: &impl Abort, text: &[u8], refusal: Refusal) {
        let mut gauge = Current::new();
        assert_eq!(rt; gauge.write_slot(0, text, 0), Err(refusal));
    }

    #[test]
    fn last_code(rt: HostRuntime) -> Result<(), Fail> {
        codes(&rt, b"255", &[(255, 1 << 31), (254, 0)])?;
        codes(&rt, b"{0:255}", &[(0, 0), (255, 0)])
    }

    #[test]
    fn lower_end(rt: HostRuntime) -> Result<(), Fail> {
        let near = i32::MIN + 65535;
        let cases = [(i32::MIN, 1), (near, 1), (near + 1, 0), (i32::MAX, 0)];
        currents(&rt, b"-2147483648~65535", &cases)
    }

    #[test]
    fn upper_end(rt: HostRuntime) -> Result<(), Fail> {
        let near = i32::MAX - 65535;
        let cases = [(i32::MAX, 1), (near, 1), (near - 1, 0), (i32::MIN, 0)];
        currents(&rt, b"2147483647~65535", &cases)
    }

    #[test]
    fn numbers(rt: HostRuntime) -> Result<(), Fail> {
        currents(&rt, b"-0", &[(0, 1)])?;
        currents(&rt, b"-000000000000000012", &[(-12, 1), (12, 0)])?;
        refused(&rt, b"-2147483649", Refusal::OutOfRange { place: 0 });
        refused(&rt, b"2147483648", Refusal::OutOfRange { place: 0 });
        refused(&rt, b"5~65536", Refusal::OutOfRange { place: 2 });
        refused(&rt, b"-", Refusal::NoDigit { place: 1 });
        Ok(())
    }

    #[test]
    fn nested_layers(rt: HostRuntime) -> Result<(), Fail> {
        let mut gauge = Both::new(Barring::new(Event::new(), Event::new()), Event::new());
        assert_eq!(rt; gauge.write_slot(0, b"[0:9]!5&[4:200]", 0)?, 15);
        for case in [(3, 0), (4, 1), (5, 0), (10, 0)].iter() {
            assert_eq!(rt; gauge.try_reading(&case.0), case.1);
        }
        let missing = Refusal::NoMark {
            layer: Layer::Slot,
            place: 3,
        };
        assert_eq!(rt; gauge.write_slot(0, b"4!5", 0), Err(missing));
        assert_eq!(rt; gauge.try_reading(&4), 0);
        Ok(())
    }

    #[test]
    fn entries(rt: HostRuntime) -> Result<(), Fail> {
        let mut gauge = Entries::new(Event::new(), Current::new());
        assert_eq!(rt; gauge.write_slot(1, b"7@-100~5", 0)?, 8);
        for case in [(7, -105, 2), (7, -106, 0), (8, -100, 0)].iter() {
            let entry = Entry {
                code: case.0,
                current: case.1,
            };
            assert_eq!(rt; gauge.try_reading(&entry), case.2);
        }
        Ok(())
    }
}
