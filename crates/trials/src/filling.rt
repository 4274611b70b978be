use cells::{PayLine, Reader, fill};
use dimension::{Dim, Dimension, Ix1};
use grid::{Layout, Strides};
use std::test::Fail;

#[test]
fn filling_reaches_the_grid_and_no_other_cell(rt: HostRuntime) -> Result<(), Fail> {
    let grid = Layout::open(
        8,
        8,
        &Dim { index: [2, 2] },
        &Strides::Custom(Dim { index: [4, 2] }),
    )?;
    let mut amounts = [1i64; 8];
    fill(&grid, &mut amounts, -7)?;
    assert!(rt; amounts == [-7, 1, -7, 1, -7, 1, -7, 1]);
    Ok(())
}

#[test]
fn another_count_of_cells_is_refused(rt: HostRuntime) -> Result<(), Fail> {
    let order: Strides<Ix1> = Strides::C;
    let grid = Layout::open(4, 8, &Dim { index: [2, 2] }, &order)?;
    let mut amounts = [1i64; 5];
    assert!(rt; fill(&grid, &mut amounts, 9).is_err());
    assert!(rt; amounts == [1, 1, 1, 1, 1]);
    Ok(())
}

#[test]
fn a_reader_of_another_count_stays_blank(rt: HostRuntime) -> Result<(), Fail> {
    let order: Strides<Ix1> = Strides::C;
    let grid = Layout::open(4, 8, &Dim { index: [2, 2] }, &order)?;
    let amounts = [1i64; 5];
    let mut reader = Reader::blank();
    let refused = reader.lend(&amounts, &grid).is_err();
    let value = reader.get(&[0]);
    assert!(rt; refused);
    assert_eq!(rt; value, None);
    Ok(())
}

#[test]
fn a_reader_is_made_of_as_many_cells_as_the_layout_has(rt: HostRuntime) -> Result<(), Fail> {
    let order: Strides<Ix1> = Strides::C;
    let grid = Layout::open(4, 8, &Dim { index: [2, 2] }, &order)?;
    let amounts = [10i64, 20, 30, 40, 50];
    assert!(rt; Reader::new(&amounts, &grid).is_err());
    let value = Reader::new(&amounts[..4], &grid)?.get(&[1, 0]);
    assert_eq!(rt; value, Some(30));
    Ok(())
}

#[test]
fn reading_finds_the_value_or_none(rt: HostRuntime) -> Result<(), Fail> {
    let order: Strides<Ix1> = Strides::F;
    let grid = Layout::open(6, 8, &Dim { index: [2, 3] }, &order)?;
    let amounts = [0i64, 10, 20, 30, 40, 50];
    let mut reader = Reader::blank();
    reader.lend(&amounts, &grid)?;
    assert_eq!(rt; reader.get(&[1, 2]), Some(50));
    assert_eq!(rt; reader.get(&[0, 1]), Some(20));
    assert_eq!(rt; reader.get(&[2, 0]), None);
    assert_eq!(rt; reader.get(&[1]), None);
    assert_eq!(rt; reader.get(&[1, 2, 0]), None);
    Ok(())
}

#[test]
fn pay_lines_are_cells_too(rt: HostRuntime) -> Result<(), Fail> {
    let grid = Layout::open(
        3,
        16,
        &Dim { index: [2] },
        &Strides::Custom(Dim { index: [2] }),
    )?;
    let none = PayLine {
        person: 0,
        code: 0,
        cents: 0,
    };
    let line = PayLine {
        person: 4_294_967_295,
        code: 255,
        cents: -1,
    };
    let mut lines = [none; 3];
    fill(&grid, &mut lines, line)?;
    assert_eq!(rt; (lines[0], lines[1], lines[2]), (line, none, line));
    Ok(())
}
