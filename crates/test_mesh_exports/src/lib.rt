// The mesh of a case for programs in other languages.
#![tactic(auto)]

ghost use Rattle.std.specs.Prelude.{length};
ghost use Rattle.case_file.specs.Trailer.{counts_of};
ghost use Rattle.mesh_area.specs.Layout.{points_in};
ghost use Rattle.case_survey.specs.Survey.{survey_of};
ghost use Rattle.mesh.specs.Case.{case_faces, mesh_from};
ghost use Rattle.test_mesh_exports.specs.Exported.{FromCellsExit};

// Builds the mesh of a case in the lent area and answers 0, or the refusal. The sizes are the
// number of faces of all definitions, of faces and of cells, which say where the area has what.
#[unsafe(no_mangle)]
pub extern "C" fn hookyellow_from_cells(
    case: &[u8],
    words: &mut [u32],
    floats: &mut [f64],
    sizes: &mut [usize],
) -> u64
    ensures { FromCellsExit
        (mesh_from case.now (length words.old) (length floats.old))
        (case_faces (survey_of case.now))
        (points_in case.now (counts_of case.now).points) words.new floats.new
        sizes.old sizes.new result }
{
    match mesh::from_cells(case, words, floats) {
        Err(refusal) => refusal.number(),
        Ok(s) => {
            if sizes.len() < 3 {
                return 0;
            }
            sizes[0] = s.slots;
            sizes[1] = s.faces;
            sizes[2] = s.cells;
            0
        }
    }
}
