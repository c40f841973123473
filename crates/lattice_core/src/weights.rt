//! Weight systems.

/// A degree and weights, in order, each a number of 64 bits. Where it is well formed the degree is at least 1 and the sum of the weights.
#[derive(Debug, Drop, PartialEq, Eq)]
pub struct WeightSystem {
    /// The degree.
    pub degree: u64,
    /// The weights.
    pub weights: Vec<u64>,
}

#[cfg(test)]
mod tests {
    use super::*;
    use std::test::Fail;

    #[test]
    fn compares_degrees_and_weights(rt: HostRuntime) -> Result<(), Fail> {
        let alloc = rt.alloc();
        let quintic = WeightSystem {
            degree: 5,
            weights: vec![in alloc; 1, 1, 1, 1, 1]?,
        };
        let other = WeightSystem {
            degree: 6,
            weights: vec![in alloc; 1, 1, 1, 1, 2]?,
        };
        assert!(rt; quintic != other);
        assert_eq!(rt;
            quintic,
            WeightSystem {
                degree: 5,
                weights: vec![in alloc; 1, 1, 1, 1, 1]?
            }
        );
        Ok(())
    }
}
