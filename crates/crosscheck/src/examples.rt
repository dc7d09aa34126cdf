//! Worked examples.
use circuits::{Design, Full, Pin, Pins};
use std::test::Fail;
use texts::{ReadFault, Reader, TextFault};

#[test]
fn half_adder_with_a_wrong_gate(rt: HostRuntime) -> Result<(), Fail> {
    let heap = rt.alloc();
    let mut reader = Reader::new(heap)?;
    let mut design = Design::new(heap)?;
    let netlist = b"in,a\nin,b\ngate,s,or,a,b\ngate,c,and,a,b\nout,s,s\nout,c,c\n";
    let rows =
        b"spec,s,00,0\nspec,s,01,1\nspec,s,10,1\nspec,s,11,0\nspec,c,11,1\nspec,c,0-,0\nspec,c,-0,0\n";
    assert!(rt; reader.read(netlist, rows, &mut design).is_ok());
    assert_eq!(rt; design.misses(), 1);
    assert_eq!(rt; design.meets(0), Some(false));
    assert_eq!(rt; design.carry(2, 3), Some(true));
    assert_eq!(rt; design.carry(8, 0), None);
    Ok(())
}

#[test]
fn refused_texts_leave_the_design(rt: HostRuntime) -> Result<(), Fail> {
    let heap = rt.alloc();
    let mut reader = Reader::new(heap)?;
    let mut design = Design::new(heap)?;
    let Err(ReadFault::Text(fault)) = reader.read(
        b"in,b\nout,y,!b\n",
        b"spec,y,0,0\nspec,y,-,1\n",
        &mut design,
    ) else {
        return Err(Fail::new("a contradicting row is accepted"));
    };
    let TextFault {
        cause,
        text: _text,
        record,
        place,
        length,
    } = fault;
    assert_eq!(rt; cause.number(), 8);
    assert!(rt; record == 2 && place == 11 && length == 10);
    assert_eq!(rt; design.output(0, 1), Some(true));
    Ok(())
}

#[test]
fn the_faulty_record_is_lent(rt: HostRuntime) -> Result<(), Fail> {
    let heap = rt.alloc();
    let mut reader = Reader::new(heap)?;
    let mut design = Design::new(heap)?;
    let netlist = b"in,b\nout,y,!b\n";
    let spec = b"spec,y,0,0\nspec,y,-,1\n";
    let Err(ReadFault::Text(fault)) = reader.read(netlist, spec, &mut design) else {
        return Err(Fail::new("a contradicting row is accepted"));
    };
    assert!(rt; fault.word(netlist, spec) == b"spec,y,-,1".as_slice());
    // a text in which no such record lies
    assert!(rt; fault.word(netlist, b"spec").is_empty());
    Ok(())
}

#[test]
fn a_fifth_pin_is_refused(rt: HostRuntime) -> Result<(), Fail> {
    let mut pins = Pins::none();
    for stem in 0..4 {
        assert!(rt; pins.push(Pin { stem, mark: true }).is_ok());
    }
    let four = pins.clone()?;
    assert_eq!(rt;
        pins.push(Pin {
            stem: 4,
            mark: true
        }),
        Err(Full)
    );
    assert!(rt; pins == four && pins != Pins::none());
    Ok(())
}
