// The values of the expansions over the coefficient sets, as gts7 and gtd7 ask for them.

#![tactic(auto)]

// globe7 over PT, PS and PD, glob7s over PTL and PMA.
#[derive(Clone, Copy)]
pub struct ExpansionValues {
    pub pt: f64,
    pub ps: f64,
    pub pd0: f64,
    pub pd1: f64,
    pub pd2: f64,
    pub pd3: f64,
    pub pd4: f64,
    pub pd5: f64,
    pub pd6: f64,
    pub pd7: f64,
    pub pd8: f64,
    pub ptl0: f64,
    pub ptl1: f64,
    pub ptl2: f64,
    pub ptl3: f64,
    pub pma0: f64,
    pub pma1: f64,
    pub pma2: f64,
    pub pma3: f64,
    pub pma4: f64,
    pub pma5: f64,
    pub pma6: f64,
    pub pma7: f64,
    pub pma8: f64,
    pub pma9: f64,
}
