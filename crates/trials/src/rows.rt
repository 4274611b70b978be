use dimension::{
    Dim, Dimension, Ix1, IxDyn, Reverse, RowFault, default_strides, fortran_strides,
    max_abs_offset_check_overflow, size_of_shape_checked, strides_non_negative,
};
use std::test::Fail;

const MOST: usize = 9_223_372_036_854_775_807;

#[test]
fn rows_read_and_write_one_place(rt: HostRuntime) {
    let mut row = Dim { index: [4, 5] };
    assert_eq!(rt; row.get(1), Some(5));
    assert_eq!(rt; row.get(2), None);
    assert!(rt; row.set(0, 9));
    assert!(rt; !row.set(2, 7));
    assert_eq!(rt; row.index, [9, 5]);
    let mut one = Dim { index: [3] };
    assert!(rt; !one.set(1, 8));
    assert_eq!(rt; one.get(0), Some(3));
}

#[test]
fn a_reversed_row_is_the_lower_one_backwards(rt: HostRuntime) -> Result<(), Fail> {
    let mut row = Reverse(IxDyn::new(&[1, 2, 3])?);
    assert_eq!(rt; row.get(0), Some(3));
    assert!(rt; row.set(2, 7));
    assert!(rt; !row.set(3, 8));
    assert_eq!(rt; row.0.get(0), Some(7));
    assert_eq!(rt; row.0.get(2), Some(3));
    assert_eq!(rt; Reverse::<Ix1>::fixed(), Some(1));
    assert_eq!(rt; IxDyn::fixed(), None);
    Ok(())
}

#[test]
fn nine_words_are_no_row(rt: HostRuntime) -> Result<(), Fail> {
    assert_eq!(rt; IxDyn::new(&[1, 1, 1, 1, 1, 1, 1, 1])?.ndim(), 8);
    assert!(rt; IxDyn::new(&[1, 1, 1, 1, 1, 1, 1, 1, 1]).is_err());
    assert_eq!(rt; IxDyn::zeros(8)?.get(7), Some(0));
    assert!(rt; IxDyn::zeros(9).is_err());
    Ok(())
}

#[test]
fn sizes_and_their_limit(rt: HostRuntime) -> Result<(), Fail> {
    assert_eq!(rt; size_of_shape_checked(&IxDyn::new(&[2, 0, 3])?), Ok(0));
    assert_eq!(rt; size_of_shape_checked(&IxDyn::new(&[])?), Ok(1));
    assert_eq!(rt;
        size_of_shape_checked(&IxDyn::new(&[1 << 40, 1 << 40, 0])?),
        Err(RowFault::Overflow)
    );
    assert_eq!(rt; size_of_shape_checked(&Dim { index: [MOST] }), Ok(MOST));
    assert_eq!(rt;
        size_of_shape_checked(&Dim { index: [MOST + 1] }),
        Err(RowFault::Overflow)
    );
    assert_eq!(rt;
        size_of_shape_checked(&Dim {
            index: [usize::MAX, 0]
        }),
        Err(RowFault::Overflow)
    );
    Ok(())
}

#[test]
fn strides_of_both_orders(rt: HostRuntime) -> Result<(), Fail> {
    let shape = IxDyn::new(&[2, 3, 4])?;
    let row = default_strides(&shape)?;
    assert_eq!(rt;
        (row.get(0), row.get(1), row.get(2)),
        (Some(12), Some(4), Some(1))
    );
    let column = fortran_strides(&shape)?;
    assert_eq!(rt;
        (column.get(0), column.get(1), column.get(2)),
        (Some(1), Some(2), Some(6))
    );
    let empty = default_strides(&Dim { index: [0, 3] })?;
    assert_eq!(rt; empty.index, [0, 0]);
    assert!(rt;
        default_strides(&Dim {
            index: [1 << 40, 1 << 40]
        })
        .is_err()
    );
    Ok(())
}

#[test]
fn reach_and_its_limits(rt: HostRuntime) {
    assert_eq!(rt;
        max_abs_offset_check_overflow(8, &Dim { index: [2, 3] }, &Dim { index: [3, 2] }),
        Ok(7)
    );
    assert_eq!(rt;
        max_abs_offset_check_overflow(8, &Dim { index: [2, 3] }, &Dim { index: [1] }),
        Err(RowFault::IncompatibleLayout)
    );
    assert_eq!(rt;
        max_abs_offset_check_overflow(1, &Dim { index: [2] }, &Dim { index: [MOST] }),
        Ok(MOST)
    );
    assert_eq!(rt;
        max_abs_offset_check_overflow(2, &Dim { index: [2] }, &Dim { index: [MOST] }),
        Err(RowFault::Overflow)
    );
    assert_eq!(rt;
        max_abs_offset_check_overflow(1, &Dim { index: [2] }, &Dim { index: [MOST + 1] }),
        Err(RowFault::Overflow)
    );
    assert_eq!(rt;
        max_abs_offset_check_overflow(
            1,
            &Dim { index: [2] },
            &Dim {
                index: [usize::MAX]
            }
        ),
        Ok(1)
    );
    assert_eq!(rt;
        max_abs_offset_check_overflow(1, &Dim { index: [1] }, &Dim { index: [MOST + 1] }),
        Ok(0)
    );
    assert_eq!(rt; strides_non_negative(&Dim { index: [1, MOST] }), Ok(()));
    assert_eq!(rt;
        strides_non_negative(&Dim {
            index: [1, MOST + 1]
        }),
        Err(RowFault::Unsupported)
    );
}
