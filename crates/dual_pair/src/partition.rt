//! Nef partitions of the vertices of a dual, with their points.

/// A nef partition of a reflexive polytope's dual. Its part numbers are those of the dual's vertices, in their order; each number below the
/// largest occurs, and a number occurs first only behind all smaller ones. For each vertex m of the polytope and each part i there is one
/// lattice point m_i that is -1 on the dual's vertices of the part on which m is -1, 0 on the others on which m is -1, at least -1 on all of
/// the part, and at least 0 elsewhere. Source: alg-geom/9509009; the order of the part numbers is this project's own.
#[derive(Debug, Drop, PartialEq, Eq)]
pub struct Partition {
    /// The part number of each vertex of the dual, in order.
    pub part_of: Vec<u8>,
    /// The places of the points m_i among the polytope's lattice points, counted from 0: vertex by vertex, and part by part for each vertex.
    pub points: Vec<u32>,
}

#[cfg(test)]
mod tests {
    use super::*;
    use std::test::Fail;

    #[test]
    fn compares_parts_and_places(rt: HostRuntime) -> Result<(), Fail> {
        let alloc = rt.alloc();
        let segment = Partition {
            part_of: vec![in alloc; 0, 1]?,
            points: vec![in alloc; 0, 1, 1, 2]?,
        };
        let other = Partition {
            part_of: vec![in alloc; 0, 0]?,
            points: vec![in alloc; 0, 2]?,
        };
        assert!(rt; segment != other);
        assert_eq!(rt;
            segment,
            Partition {
                part_of: vec![in alloc; 0, 1]?,
                points: vec![in alloc; 0, 1, 1, 2]?
            }
        );
        Ok(())
    }
}
