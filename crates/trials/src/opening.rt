use dimension::{Dim, Dimension, Ix1, Ix2, IxDyn};
use grid::{GridFault, Layout, Strides};
use std::test::Fail;

/// The number of the fault that opening gives, or 0.
fn number(res: Result<Layout, GridFault>) -> u8 {
    match res {
        Ok(_) => 0,
        Err(fault) => fault.number(),
    }
}

/// Opens with a stride row over elements of one byte.
fn strided(cells: usize, lens: Ix2, strides: Ix2) -> u8 {
    number(Layout::open(cells, 1, &lens, &Strides::Custom(strides)))
}

#[test]
fn each_refusal_alone(rt: HostRuntime) {
    assert_eq!(rt; strided(6, Dim { index: [2, 3] }, Dim { index: [3, 1] }), 0);
    assert_eq!(rt;
        strided(1_048_577, Dim { index: [2, 3] }, Dim { index: [3, 1] }),
        12
    );
    assert_eq!(rt;
        number(Layout::open(
            6,
            1,
            &Dim { index: [2, 3] },
            &Strides::Custom(Dim { index: [1] })
        )),
        2
    );
    assert_eq!(rt;
        strided(
            6,
            Dim { index: [2, 3] },
            Dim {
                index: [usize::MAX, 1]
            }
        ),
        5
    );
    assert_eq!(rt;
        strided(
            6,
            Dim {
                index: [1 << 40, 1 << 40]
            },
            Dim { index: [0, 0] }
        ),
        6
    );
    assert_eq!(rt;
        strided(
            1_048_576,
            Dim {
                index: [1024, 1025]
            },
            Dim { index: [0, 0] }
        ),
        12
    );
    assert_eq!(rt;
        strided(
            6,
            Dim { index: [1, 1] },
            Dim {
                index: [1_048_577, 1]
            }
        ),
        12
    );
    assert_eq!(rt; strided(5, Dim { index: [2, 3] }, Dim { index: [3, 1] }), 4);
    assert_eq!(rt; strided(8, Dim { index: [2, 3] }, Dim { index: [3, 2] }), 5);
}

#[test]
fn the_earlier_of_two_refusals(rt: HostRuntime) {
    assert_eq!(rt;
        number(Layout::open(
            1_048_577,
            1,
            &Dim { index: [2, 3] },
            &Strides::Custom(Dim { index: [1] })
        )),
        12
    );
    assert_eq!(rt;
        number(Layout::open(
            6,
            1,
            &Dim { index: [2, 3] },
            &Strides::Custom(Dim {
                index: [usize::MAX]
            })
        )),
        2
    );
    assert_eq!(rt;
        strided(
            6,
            Dim {
                index: [1 << 40, 1 << 40]
            },
            Dim {
                index: [usize::MAX, 1]
            }
        ),
        5
    );
    assert_eq!(rt;
        number(Layout::open(
            6,
            1 << 63,
            &Dim { index: [1, 2] },
            &Strides::Custom(Dim {
                index: [1_048_577, 1]
            })
        )),
        6
    );
    assert_eq!(rt;
        strided(
            6,
            Dim {
                index: [1024, 1025]
            },
            Dim {
                index: [1_048_577, 1]
            }
        ),
        12
    );
    assert_eq!(rt;
        strided(
            6,
            Dim { index: [8, 1] },
            Dim {
                index: [1_048_577, 1]
            }
        ),
        12
    );
    assert_eq!(rt; strided(4, Dim { index: [2, 3] }, Dim { index: [3, 2] }), 4);
}

#[test]
fn orders_and_limits(rt: HostRuntime) -> Result<(), Fail> {
    let c: Strides<Ix1> = Strides::C;
    let f: Strides<Ix1> = Strides::F;
    assert_eq!(rt; number(Layout::open(5, 8, &Dim { index: [2, 3] }, &c)), 4);
    assert_eq!(rt;
        number(Layout::open(6, usize::MAX, &Dim { index: [2, 3] }, &f)),
        0
    );
    assert_eq!(rt;
        number(Layout::open(
            1_048_576,
            8,
            &Dim {
                index: [1024, 1024]
            },
            &c
        )),
        0
    );
    assert_eq!(rt;
        number(Layout::open(
            1_048_576,
            8,
            &Dim {
                index: [1024, 1025]
            },
            &c
        )),
        12
    );
    assert_eq!(rt;
        number(Layout::open(
            0,
            8,
            &Dim {
                index: [0, 1_048_577]
            },
            &c
        )),
        12
    );
    assert_eq!(rt;
        number(Layout::open(
            0,
            8,
            &Dim {
                index: [0, 1_048_576]
            },
            &c
        )),
        0
    );
    assert_eq!(rt; number(Layout::open(1, 8, &IxDyn::new(&[])?, &c)), 0);
    assert_eq!(rt; number(Layout::open(0, 8, &IxDyn::new(&[])?, &c)), 4);
    Ok(())
}

#[test]
fn a_grid_without_cells_keeps_its_strides(rt: HostRuntime) -> Result<(), Fail> {
    let grid = Layout::open(
        2,
        1,
        &Dim { index: [0, 3] },
        &Strides::Custom(Dim { index: [5, 1] }),
    )?;
    assert_eq!(rt; (grid.start(), grid.cell_count()), (0, 2));
    assert_eq!(rt; grid.strides().get(0), Some(5));
    assert_eq!(rt; strided(1, Dim { index: [0, 3] }, Dim { index: [5, 1] }), 4);
    assert_eq!(rt; strided(0, Dim { index: [0, 3] }, Dim { index: [5, 0] }), 0);
    Ok(())
}
