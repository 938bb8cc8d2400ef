// Documents that several tests name.

/// The mosaic of two tiles of 1,201 by 1,201 beside each other, as `gdalbuildvrt` writes it.
pub const TWO_TILES: &[u8] = b"<VRTDataset rasterXSize=\"2401\" rasterYSize=\"1201\">
  <GeoTransform>-0.0004166666666667, 0.0008333333333333, 0, 1.0004166666666667, 0, -0.0008333333333333</GeoTransform>
  <VRTRasterBand dataType=\"Int16\" band=\"1\">
    <NoDataValue>-32768</NoDataValue>
    <ComplexSource>
      <SourceFilename relativeToVRT=\"1\">N00E000.hgt</SourceFilename>
      <SourceBand>1</SourceBand>
      <SrcRect xOff=\"0\" yOff=\"0\" xSize=\"1201\" ySize=\"1201\"/>
      <DstRect xOff=\"0\" yOff=\"0\" xSize=\"1201\" ySize=\"1201\"/>
      <NODATA>-32768</NODATA>
    </ComplexSource>
    <ComplexSource>
      <SourceFilename relativeToVRT=\"1\">N00E001.hgt</SourceFilename>
      <SourceBand>1</SourceBand>
      <SrcRect xOff=\"0\" yOff=\"0\" xSize=\"1201\" ySize=\"1201\"/>
      <DstRect xOff=\"1200\" yOff=\"0\" xSize=\"1201\" ySize=\"1201\"/>
      <NODATA>-32768</NODATA>
    </ComplexSource>
  </VRTRasterBand>
</VRTDataset>
";
